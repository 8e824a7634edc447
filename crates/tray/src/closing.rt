//! The work of a close.
//!
//! With d_1 to d_n the denominators, one inversion of the product d_1·…·d_n answers for all of them: it has an
//! inverse exactly when each of them has. Only where it has none are they inverted one by one, to name the
//! first that has none.
//!
//! The products d_1·…·d_i lead up to that product and belong on the product shelves, so they are put there on the
//! way. A refused close leaves the sheet as it was: the product shelves of an open tray are blank, so the products
//! are erased by zeros. Where other code has written to a product shelf, the product of all is worked out apart
//! first, and the shelves are written to only once its inverse is there.

ghost use Rattle.std.specs.Prelude.{◌≡◌, ℕ, ◌+◌, ◌*◌, ◌<◌, ◌≤◌, true, List, ◌==◌, length, IfSome};
ghost use Rattle.std.specs.List.{list_all};
ghost use Rattle.std.specs.Option.{option_map_or};
ghost use Rattle.traylaw.specs.Calculus.{calculus, times, Polynomial};
ghost use Rattle.traylaw.specs.Sheets.{room, denominator_at};
ghost use Rattle.traylaw.specs.Effects.{product, coded_denominators, first_uninvertible, with_products};
ghost use Rattle.tray.specs.Inverses.{Blank, FitsInversion};
ghost use Rattle.tray.specs.Shelves.{KeepsCut};

use crate::shelves::{Shelf, Shelves};
use field::Field;
use ring::GREATEST_DEGREE;

impl Shelves<'_> {
    /// Whether the first n denominators hold codes. Each of them is looked at.
    pub(crate) fn coded_denominators<F: Field>(&self, n: usize) -> bool
        requires { n ≤ self.now.capacity }
        ensures { result ≡ coded_denominators (calculus F.Field.arithmetic F.Field.recip self.now.p) n self.now.sheet.now }
    {
        (0..n).fold(true, |all, i| all & self.coded::<F>(Shelf::Denominator(i)))
    }

    /// Multiplies a running product by the denominator of entry i + 1: `multiply` in place, by a copy.
    fn times_denominator<F: Field>(&self, i: usize, running: &mut [u16])
        requires within { i < self.now.capacity }
        requires running { Polynomial (calculus F.Field.arithmetic F.Field.recip self.now.p) running.old }
        requires denominator { Polynomial (calculus F.Field.arithmetic F.Field.recip self.now.p) (denominator_at self.now.p i self.now.sheet.now) }
        ensures multiplied { running.new ≡ times (calculus F.Field.arithmetic F.Field.recip self.now.p) running.old (denominator_at self.now.p i self.now.sheet.now) }
        ensures polynomial { Polynomial (calculus F.Field.arithmetic F.Field.recip self.now.p) running.new }
    {
        let mut room = [0u16; GREATEST_DEGREE];
        let before = &mut room[..self.p];
        before.copy_from_slice(running);
        self.multiply::<F>(before, self.shelf(Shelf::Denominator(i)), running);
    }

    /// The product of the first n denominators. (`write_products` makes it too, but writes to the sheet.)
    #[tactic(auto, using(crate::proofs::Closings::product_more))]
    pub(crate) fn multiply_denominators<F: Field>(&self, n: usize, whole: &mut [u16])
        requires some { 1 ≤ n }
        requires within { n ≤ self.now.capacity }
        requires long_whole { length whole.old ≡ self.now.p }
        requires codes_denominators { coded_denominators (calculus F.Field.arithmetic F.Field.recip self.now.p) n self.now.sheet.now ≡ true }
        ensures multiplied { whole.new ≡ product (calculus F.Field.arithmetic F.Field.recip self.now.p) n self.now.sheet.now }
        ensures polynomial { Polynomial (calculus F.Field.arithmetic F.Field.recip self.now.p) whole.new }
    {
        whole.copy_from_slice(self.shelf(Shelf::Denominator(0)));
        // By the entries' numbers: the first denominator is copied, and each other one changes `whole`.
        for i in 1..n {
            self.times_denominator::<F>(i, whole);
        }
    }

    /// The first of n entries whose denominator has no inverse, counted from 0. The denominators are inverted one
    /// after another up to that entry.
    #[tactic(auto, using(crate::proofs::Closings::searched))]
    pub(crate) fn first_uninvertible<F: Field>(
        &self,
        n: usize,
        scratch: &mut [u16],
    ) -> Option<usize>
        requires within { n ≤ self.now.capacity }
        requires long_scratch { FitsInversion self.now.p scratch.old }
        requires codes_denominators { coded_denominators (calculus F.Field.arithmetic F.Field.recip self.now.p) n self.now.sheet.now ≡ true }
        ensures within { IfSome result (λ i. i < n) }
        ensures first { option_map_or (λ i. i + 1) result 0 ≡ first_uninvertible (calculus F.Field.arithmetic F.Field.recip self.now.p) n self.now.sheet.now }
    {
        // Not a `find`: its closure would change the scratch, and of such calls a proof knows nothing.
        for i in 0..n {
            let denominator = self.shelf(Shelf::Denominator(i));
            if self.invert::<F>(denominator, scratch).is_none() {
                return Some(i);
            }
        }
        None
    }

    /// Puts on the product shelf of each of the first n entries the product of the denominators up to its own, and
    /// leaves the product of the first n + 1 denominators in `running`.
    pub(crate) fn write_products<F: Field>(&mut self, n: usize, running: &mut [u16])
        requires within { n < self.old.capacity }
        requires long_running { length running.old ≡ self.old.p }
        requires codes_denominators { coded_denominators (calculus F.Field.arithmetic F.Field.recip self.old.p) (n + 1) self.old.sheet.now ≡ true }
        ensures cut { KeepsCut self.old self.new }
        ensures written { self.new.sheet.now ≡ with_products (calculus F.Field.arithmetic F.Field.recip self.old.p) n self.old.sheet.now }
        ensures multiplied { running.new ≡ product (calculus F.Field.arithmetic F.Field.recip self.old.p) (n + 1) self.old.sheet.now }
        ensures polynomial { Polynomial (calculus F.Field.arithmetic F.Field.recip self.old.p) running.new }
    {
        running.copy_from_slice(self.shelf(Shelf::Denominator(0)));
        // By the entries' numbers: each turn writes to one entry and reads the next.
        for i in 0..n {
            self.put_on(Shelf::Product(i), running);
            self.times_denominator::<F>(i + 1, running);
        }
    }

    /// Whether the product shelves of the first n entries are blank, as they are unless other code has written to the
    /// sheet. Each of them is looked at.
    pub(crate) fn blank_products(&self, n: usize) -> bool
        requires { n ≤ self.now.capacity }
        ensures { result ≡ true → Blank self.now.p self.now.sheet.now n }
    {
        (0..n).fold(true, |all, i| all & blank(self.shelf(Shelf::Product(i))))
    }

    /// Erases the products of the first n entries from shelves that were blank, the last first.
    pub(crate) fn erase_products<F: Field>(&mut self, n: usize)
        requires { n ≤ self.old.capacity }
        ensures cut { KeepsCut self.old self.new }
        ensures erased { (before : List ℕ) → room self.old.p self.old.capacity ≤ length before → Blank self.old.p before n → self.old.sheet.now ≡ with_products (calculus F.Field.arithmetic F.Field.recip self.old.p) n before → self.new.sheet.now ≡ before }
    {
        // By the entries' numbers: after `chunks_mut` a proof knows no element of the sheet.
        for i in (0..n).rev() {
            self.zero_shelf(Shelf::Product(i));
        }
    }
}

/// Whether a list holds zeros only. Each number is looked at.
fn blank(list: &[u16]) -> bool
    ensures { result ≡ list_all (λ x. x == 0) list.now }
{
    list.iter().fold(true, |all, x| all & (*x == 0))
}
