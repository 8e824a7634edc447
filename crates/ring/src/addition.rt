//! Sums of polynomials.

ghost use Rattle.std.specs.Prelude.{◌≡◌, length, is_ok, if◌then◌else◌};
ghost use Rattle.std.specs.Result.{result_err};
ghost use Rattle.refusal.specs.Questions.{first_no};
ghost use Rattle.field.specs.Meaning.{coded};
ghost use Rattle.ring.specs.Asked.{operands_asked};
ghost use Rattle.ring.specs.Polynomials.{sum as sum_of};

use crate::questions::ask_operands;
use field::Field;
use refusal::Refusal;

/// The sum of two polynomials of p codes.
#[tactic(auto, unfolding(crate::specs::Polynomials::sum))]
pub fn sum<F: Field>(p: usize, a: &[u16], b: &[u16], out: &mut [u16]) -> Result<(), Refusal>
    ensures refused_as_asked { result_err result ≡ first_no (operands_asked F.Field.arithmetic.size p a.now b.now (length out.old)) }
    ensures out_is_sum { out.new ≡ (if is_ok result then sum_of (coded F.Field.arithmetic) p a.now b.now else out.old) }
{
    ask_operands::<F>(p, a, b, out.len())?;
    F::sum(a, b, out);
    Ok(())
}
