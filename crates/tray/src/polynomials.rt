//! Products and inverses of polynomials of the degree of a tray.

ghost use Rattle.std.specs.Prelude.{◌≡◌, ◌+◌, ◌*◌, ◌≤◌, length, nat_le, take};
ghost use Rattle.std.specs.Option.{option_map};
ghost use Rattle.std.specs.Result.{result_err};
ghost use Rattle.refusal.specs.declared.Refusal.TheVariants.{Scratch};
ghost use Rattle.refusal.specs.Questions.{asked};
ghost use Rattle.divstep.specs.ReadOff.{inversion_steps};
ghost use Rattle.traylaw.specs.Calculus.{calculus, times, Polynomial};
ghost use Rattle.tray.specs.Inverses.{FitsInversion};

use crate::shelves::Shelves;
use field::Field;
use refusal::Refusal;
use ring::{GREATEST_DEGREE, product};
use steps::inverse;

impl Shelves<'_> {
    /// Asks whether a scratch is long enough to invert a polynomial with.
    pub(crate) fn ask_scratch(&self, scratch: &[u16]) -> Result<(), Refusal>
        ensures { result_err result ≡ asked Scratch (nat_le (32 * self.now.p + 256) (length scratch.now)) }
    {
        if scratch.len() < 32 * self.p + 256 {
            return Err(Refusal::Scratch);
        }
        Ok(())
    }

    /// The product of a and b.
    pub(crate) fn multiply<F: Field>(&self, a: &[u16], b: &[u16], out: &mut [u16])
        requires a { Polynomial (calculus F.Field.arithmetic F.Field.recip self.now.p) a.now }
        requires b { Polynomial (calculus F.Field.arithmetic F.Field.recip self.now.p) b.now }
        requires long_out { length out.old ≡ self.now.p }
        ensures multiplied { out.new ≡ times (calculus F.Field.arithmetic F.Field.recip self.now.p) a.now b.now }
        ensures polynomial { Polynomial (calculus F.Field.arithmetic F.Field.recip self.now.p) out.new }
    {
        // All that it asks holds, so it is not refused.
        let _ = product::<F>(self.p, a, b, out);
    }

    /// The inverse of a in the first p places, if a has one.
    pub(crate) fn invert<F: Field>(
        &self,
        a: &[u16],
        scratch: &mut [u16],
    ) -> Option<[u16; GREATEST_DEGREE]>
        requires a { Polynomial (calculus F.Field.arithmetic F.Field.recip self.now.p) a.now }
        requires long_scratch { FitsInversion self.now.p scratch.old }
        ensures { option_map (take self.now.p) result ≡ (calculus F.Field.arithmetic F.Field.recip self.now.p).inverse a.now }
    {
        // There is no heap here: an array has room for the greatest degree, and the first p places are used.
        let mut out = [0u16; GREATEST_DEGREE];
        inverse::<F>(self.p, a, &mut out[..self.p], scratch).ok()?;
        Some(out)
    }

    /// How many division steps an inversion makes.
    pub(crate) fn inversion_steps(&self) -> u32
        ensures { result ≡ inversion_steps self.now.p }
    {
        2 * self.p as u32 - 1
    }
}
