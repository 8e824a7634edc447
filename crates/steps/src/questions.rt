//! The questions of the calls, in their order.

ghost use Rattle.std.specs.Prelude.{◌≡◌, length, IfOk, OnOk};
ghost use Rattle.std.specs.Result.{result_err};
ghost use Rattle.refusal.specs.Questions.{first_no};
ghost use Rattle.steps.specs.Asked.{steps_asked, StepsAllowed, inversion_asked};

use field::{Field, all_codes};
use refusal::Refusal;
use ring::{Degree, GREATEST_DEGREE};

/// The greatest count of steps, which is that of an inversion of the greatest degree.
const MOST_STEPS: usize = 2 * GREATEST_DEGREE - 1;

/// The greatest degree difference, with either sign, that steps may begin with.
const MOST_DELTA: u32 = MOST_STEPS as u32;

/// The greatest length of f and g.
const MOST_LENGTH: usize = GREATEST_DEGREE + 1;

/// Asks for a steps call, argument by argument; u, v, q, r and scratch are lengths.
pub(crate) fn ask_steps<F: Field>(
    delta: i32,
    n: usize,
    f: &[u16],
    g: &[u16],
    u: usize,
    v: usize,
    q: usize,
    r: usize,
    scratch: usize,
) -> Result<(), Refusal>
    ensures asked { result_err result ≡ first_no (steps_asked F.Field.arithmetic.size delta n f.now g.now u v q r scratch) }
    ensures allowed { OnOk result (StepsAllowed F.Field.arithmetic.size delta n f.now g.now u v q r scratch) }
{
    if n > MOST_STEPS
        || delta.unsigned_abs() > MOST_DELTA
        || !(1..=MOST_LENGTH).contains(&f.len())
    {
        return Err(Refusal::Range);
    }
    if scratch < 16 * (f.len() + n) + 256 {
        return Err(Refusal::Scratch);
    }
    if g.len() != f.len() || [u, v, q, r] != [n + 1; 4] {
        return Err(Refusal::Length);
    }
    if !(all_codes::<F>(f) & all_codes::<F>(g)) {
        return Err(Refusal::NotACode { entry: 0 });
    }
    Ok(())
}

/// Asks for an inversion, all but whether there is an inverse; out and scratch are lengths.
pub(crate) fn ask_inversion<F: Field>(
    p: usize,
    a: &[u16],
    out: usize,
    scratch: usize,
) -> Result<Degree, Refusal>
    ensures asked { result_err result ≡ first_no (inversion_asked F.Field.arithmetic.size p a.now out scratch) }
    ensures degree { IfOk result (λ d. d ≡ p) }
{
    let degree = Degree::try_from(p)?;
    if scratch < 32 * p + 256 {
        return Err(Refusal::Scratch);
    }
    if a.len() != p || out != p {
        return Err(Refusal::Length);
    }
    if !all_codes::<F>(a) {
        return Err(Refusal::NotACode { entry: 0 });
    }
    Ok(degree)
}
