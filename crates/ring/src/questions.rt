//! The questions of a call on two polynomials, in their order.

ghost use Rattle.std.specs.Prelude.{◌≡◌, length};
ghost use Rattle.std.specs.Result.{result_err};
ghost use Rattle.refusal.specs.Questions.{first_no};
ghost use Rattle.ring.specs.Asked.{operands_asked};

use crate::degree::Degree;
use field::{Field, all_codes};
use refusal::Refusal;

/// Asks whether p is a degree, a, b and the output have p numbers, and a and b hold codes.
pub(crate) fn ask_operands<F: Field>(
    p: usize,
    a: &[u16],
    b: &[u16],
    out: usize,
) -> Result<(), Refusal>
    ensures { result_err result ≡ first_no (operands_asked F.Field.arithmetic.size p a.now b.now out) }
{
    Degree::try_from(p)?;
    if a.len() != p || b.len() != p || out != p {
        return Err(Refusal::Length);
    }
    if !(all_codes::<F>(a) & all_codes::<F>(b)) {
        return Err(Refusal::NotACode { entry: 0 });
    }
    Ok(())
}
