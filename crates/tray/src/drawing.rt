//! The work of a draw.
//!
//! With d_1 to d_k the denominators of the entries that are left, the product shelf of the last entry holds the
//! inverse of d_1·…·d_k and that of the entry before it d_1·…·d_(k−1). Their product is the inverse of d_k, and the
//! former times d_k is the inverse of d_1·…·d_(k−1), which goes to the entry before.

ghost use Rattle.std.specs.Prelude.{◌≡◌, ◌<◌, ◌≤◌, true, length};
ghost use Rattle.traylaw.specs.Calculus.{calculus, times, Polynomial};
ghost use Rattle.traylaw.specs.Sheets.{numerator_at, denominator_at, product_at};
ghost use Rattle.traylaw.specs.Effects.{coded_last, last_inverse, put_before, draw_sheet};
ghost use Rattle.tray.specs.Shelves.{KeepsCut};

use crate::shelves::{Shelf, Shelves};
use field::Field;

impl Shelves<'_> {
    /// Whether the shelves that a draw reads hold codes: the three of entry i + 1, the last, and the product shelf of
    /// the entry before it, where there is one. Each of them is looked at.
    #[tactic(auto, using(crate::proofs::Drawings::entry_before))]
    pub(crate) fn coded_last<F: Field>(&self, i: usize) -> bool
        requires { i < self.now.capacity }
        ensures { result ≡ coded_last (calculus F.Field.arithmetic F.Field.recip self.now.p) i self.now.sheet.now }
    {
        self.coded::<F>(Shelf::Numerator(i))
            & self.coded::<F>(Shelf::Denominator(i))
            & self.coded::<F>(Shelf::Product(i))
            & (i == 0 || self.coded::<F>(Shelf::Product(i - 1)))
    }

    /// The inverse of the last denominator, that of entry i + 1.
    #[tactic(auto, using(crate::proofs::Drawings::entry_before))]
    fn invert_last<F: Field>(&self, i: usize, out: &mut [u16])
        requires within { i < self.now.capacity }
        requires long_out { length out.old ≡ self.now.p }
        requires codes { coded_last (calculus F.Field.arithmetic F.Field.recip self.now.p) i self.now.sheet.now ≡ true }
        ensures inverted { out.new ≡ last_inverse (calculus F.Field.arithmetic F.Field.recip self.now.p) i self.now.sheet.now }
        ensures polynomial { Polynomial (calculus F.Field.arithmetic F.Field.recip self.now.p) out.new }
    {
        let whole = self.shelf(Shelf::Product(i));
        if i == 0 {
            out.copy_from_slice(whole);
        } else {
            self.multiply::<F>(whole, self.shelf(Shelf::Product(i - 1)), out);
        }
    }

    /// Carries the inverse of the product of all denominators, times the last one, over to the entry before; there
    /// is nothing to carry to where entry i + 1 is the first. `work` is overwritten.
    #[tactic(auto, using(crate::proofs::Drawings::entry_before))]
    fn carry<F: Field>(&mut self, i: usize, work: &mut [u16])
        requires within { i < self.old.capacity }
        requires long_work { length work.old ≡ self.old.p }
        requires codes { coded_last (calculus F.Field.arithmetic F.Field.recip self.old.p) i self.old.sheet.now ≡ true }
        ensures cut { KeepsCut self.old self.new }
        ensures carried { self.new.sheet.now ≡ put_before (calculus F.Field.arithmetic F.Field.recip self.old.p) i (times (calculus F.Field.arithmetic F.Field.recip self.old.p) (product_at self.old.p i self.old.sheet.now) (denominator_at self.old.p i self.old.sheet.now)) self.old.sheet.now }
    {
        if i > 0 {
            let whole = self.shelf(Shelf::Product(i));
            self.multiply::<F>(whole, self.shelf(Shelf::Denominator(i)), work);
            self.put_on(Shelf::Product(i - 1), work);
        }
    }

    /// Writes the quotient of entry i + 1, the last, and removes the entry from the sheet.
    pub(crate) fn draw_last<F: Field>(&mut self, i: usize, out: &mut [u16], work: &mut [u16])
        requires within { i < self.old.capacity }
        requires long_out { length out.old ≡ self.old.p }
        requires long_work { self.old.p ≤ length work.old }
        requires codes { coded_last (calculus F.Field.arithmetic F.Field.recip self.old.p) i self.old.sheet.now ≡ true }
        ensures cut { KeepsCut self.old self.new }
        ensures sheet_drawn { self.new.sheet.now ≡ draw_sheet (calculus F.Field.arithmetic F.Field.recip self.old.p) i self.old.sheet.now }
        ensures quotient { out.new ≡ times (calculus F.Field.arithmetic F.Field.recip self.old.p) (numerator_at self.old.p i self.old.sheet.now) (last_inverse (calculus F.Field.arithmetic F.Field.recip self.old.p) i self.old.sheet.now) }
    {
        let work = &mut work[..self.p];
        self.invert_last::<F>(i, work);
        self.multiply::<F>(self.shelf(Shelf::Numerator(i)), work, out);
        self.carry::<F>(i, work);
        self.zero_entry(i);
    }
}
