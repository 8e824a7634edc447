//! The call that inverts a polynomial.

ghost use Rattle.std.specs.Prelude.{◌≡◌, length, replicate, is_ok, IfOk, if◌then◌else◌, Some, OnOk};
ghost use Rattle.std.specs.Option.{unwrap_or};
ghost use Rattle.std.specs.Result.{result_err};
ghost use Rattle.refusal.specs.declared.Refusal.TheVariants.{NoInverse};
ghost use Rattle.refusal.specs.Questions.{first_no};
ghost use Rattle.divstep.specs.ReadOff.{inversion_steps, inverse_of, IsInverse, NoInverseOf};
ghost use Rattle.steps.specs.Asked.{inverse_asked};

use crate::inversion::invert;
use crate::questions::ask_inversion;
use field::Field;
use refusal::Refusal;
use scratch::Wipe;

/// Inverts a polynomial of p codes. Makes and reports 2p − 1 division steps, whether there is an inverse or not.
pub fn inverse<F: Field>(
    p: usize,
    a: &[u16],
    out: &mut [u16],
    scratch: &mut [u16],
) -> Result<u32, Refusal>
    ensures scratch_zero { scratch.new ≡ replicate (length scratch.old) 0 }
    ensures refused_as_asked { result_err result ≡ first_no (inverse_asked F.Field.arithmetic.size p a.now (length out.old) (length scratch.old) (inverse_of F.Field.arithmetic p F.Field.recip a.now)) }
    ensures steps_reported { IfOk result (λ n. n ≡ inversion_steps p) }
    ensures out_as_read_off { out.new ≡ (if is_ok result then unwrap_or (inverse_of F.Field.arithmetic p F.Field.recip a.now) out.old else out.old) }
    ensures out_is_inverse { OnOk result (IsInverse F.Field.arithmetic p a.now out.new) }
    ensures refused_where_none { result_err result ≡ Some (NoInverse 0 (inversion_steps p)) → NoInverseOf F.Field.arithmetic p a.now }
{
    let guard = Wipe { scratch };
    let degree = ask_inversion::<F>(p, a, out.len(), guard.scratch.len())?;
    let steps = 2 * p as u32 - 1;
    invert::<F>(degree, a, out, guard.scratch).ok_or(Refusal::NoInverse { entry: 0, steps })?;
    Ok(steps)
}
