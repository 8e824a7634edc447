//! Closing a tray.

ghost use Rattle.std.specs.Prelude.{◌≡◌, ◌+◌, ◌-◌, ◌*◌, ◌≤◌, true, length, replicate, IfOk, MatchResult};
ghost use Rattle.std.specs.Result.{result_err};
ghost use Rattle.refusal.specs.Questions.{first_no};
ghost use Rattle.refusal.specs.declared.Refusal.TheVariants.{NoInverse};
ghost use Rattle.traylaw.specs.Calculus.{calculus};
ghost use Rattle.divstep.specs.ReadOff.{inversion_steps};
ghost use Rattle.traylaw.specs.Effects.{refusal_of, granted, coded_denominators, first_uninvertible, inverse_asked, inversion_asked, close_sheet, after_close};
ghost use Rattle.tray.specs.Inverses.{Blank, FitsInversion};
ghost use Rattle.tray.specs.Shelves.{KeepsCut};

use crate::shelves::{Shelf, Shelves, ask_sheet};
use crate::trays::{ClosedTray, OpenTray, Tray};
use field::Field;
use refusal::Refusal;
use ring::GREATEST_DEGREE;
use scratch::Wipe;
use std::marker::PhantomData;

impl OpenTray {
    /// Closes the tray with one inversion and reports its 2p − 1 division steps. A tray that cannot be closed
    /// is given back with the refusal.
    pub fn close<F: Field>(
        self,
        sheet: &mut [u16],
        scratch: &mut [u16],
    ) -> Result<(ClosedTray, u32), (OpenTray, Refusal)>
        ensures scratch_zero { scratch.new ≡ replicate (length scratch.old) 0 }
        ensures refused_as_asked { refusal_of result ≡ (after_close (calculus F.Field.arithmetic F.Field.recip self.p) self.capacity self.count sheet.old (length scratch.old)).refusal }
        ensures sheet_holds_products { sheet.new ≡ (after_close (calculus F.Field.arithmetic F.Field.recip self.p) self.capacity self.count sheet.old (length scratch.old)).sheet }
        ensures steps_reported { IfOk result (λ t. t.1 ≡ (after_close (calculus F.Field.arithmetic F.Field.recip self.p) self.capacity self.count sheet.old (length scratch.old)).report) }
        ensures entries_stay { MatchResult result (λ t. (t.0.p ≡ self.p) × (t.0.capacity ≡ self.capacity) × (t.0.count ≡ self.count)) (λ t. t.0 ≡ self) }
    {
        let guard = Wipe { scratch };
        // A `match`, since each arm moves the tray.
        match self.close_on::<F>(sheet, guard.scratch) {
            Ok(steps) => {
                let Tray {
                    p,
                    capacity,
                    count,
                    state: _,
                } = self;
                let closed = Tray {
                    p,
                    capacity,
                    count,
                    state: PhantomData,
                };
                Ok((closed, steps))
            }
            Err(refusal) => Err((self, refusal)),
        }
    }

    /// Closes the tray on its sheet, and reports the steps.
    fn close_on<F: Field>(&self, sheet: &mut [u16], scratch: &mut [u16]) -> Result<u32, Refusal>
        ensures refused_as_asked { result_err result ≡ (after_close (calculus F.Field.arithmetic F.Field.recip self.now.p) self.now.capacity self.now.count sheet.old (length scratch.old)).refusal }
        ensures sheet_holds_products { sheet.new ≡ (after_close (calculus F.Field.arithmetic F.Field.recip self.now.p) self.now.capacity self.now.count sheet.old (length scratch.old)).sheet }
        ensures steps_reported { IfOk result (λ n. n ≡ (after_close (calculus F.Field.arithmetic F.Field.recip self.now.p) self.now.capacity self.now.count sheet.old (length scratch.old)).report) }
    {
        ask_sheet(self.p, self.capacity, sheet)?;
        let mut shelves = self.shelves(sheet);
        shelves.ask_close::<F>(self.count, scratch)?;
        if shelves.blank_products(self.count - 1) {
            shelves.close_blank::<F>(self.count, scratch)
        } else {
            shelves.close_written::<F>(self.count, scratch)
        }
    }
}

impl Shelves<'_> {
    /// Closes a tray whose product shelves are blank: the products are put there on the way to the inverse.
    fn close_blank<F: Field>(&mut self, count: usize, scratch: &mut [u16]) -> Result<u32, Refusal>
        requires some { 1 ≤ count }
        requires within { count ≤ self.old.capacity }
        requires long_scratch { FitsInversion self.old.p scratch.old }
        requires codes_denominators { coded_denominators (calculus F.Field.arithmetic F.Field.recip self.old.p) count self.old.sheet.now ≡ true }
        requires blank { Blank self.old.p self.old.sheet.now (count - 1) }
        ensures cut { KeepsCut self.old self.new }
        ensures refused_where_none { result_err result ≡ inverse_asked (calculus F.Field.arithmetic F.Field.recip self.old.p) count self.old.sheet.now }
        ensures sheet_holds_products { self.new.sheet.now ≡ granted (inverse_asked (calculus F.Field.arithmetic F.Field.recip self.old.p) count self.old.sheet.now) (close_sheet (calculus F.Field.arithmetic F.Field.recip self.old.p) count self.old.sheet.now) self.old.sheet.now }
        ensures steps_reported { IfOk result (λ n. n ≡ inversion_steps self.old.p) }
    {
        let mut room = [0u16; GREATEST_DEGREE];
        let whole = &mut room[..self.p];
        self.write_products::<F>(count - 1, whole);
        let Some(inverse) = self.invert::<F>(whole, scratch) else {
            self.erase_products::<F>(count - 1);
            return Err(self.name_uninvertible::<F>(count, scratch));
        };
        self.put_on(Shelf::Product(count - 1), &inverse[..self.p]);
        Ok(self.inversion_steps())
    }

    /// Closes a tray to whose product shelves other code has written: they stay until the inverse is there.
    /// (One function with `close_blank` would test three times which of the two it is.)
    fn close_written<F: Field>(&mut self, count: usize, scratch: &mut [u16]) -> Result<u32, Refusal>
        requires some { 1 ≤ count }
        requires within { count ≤ self.old.capacity }
        requires long_scratch { FitsInversion self.old.p scratch.old }
        requires codes_denominators { coded_denominators (calculus F.Field.arithmetic F.Field.recip self.old.p) count self.old.sheet.now ≡ true }
        ensures cut { KeepsCut self.old self.new }
        ensures refused_where_none { result_err result ≡ inverse_asked (calculus F.Field.arithmetic F.Field.recip self.old.p) count self.old.sheet.now }
        ensures sheet_holds_products { self.new.sheet.now ≡ granted (inverse_asked (calculus F.Field.arithmetic F.Field.recip self.old.p) count self.old.sheet.now) (close_sheet (calculus F.Field.arithmetic F.Field.recip self.old.p) count self.old.sheet.now) self.old.sheet.now }
        ensures steps_reported { IfOk result (λ n. n ≡ inversion_steps self.old.p) }
    {
        let mut room = [0u16; GREATEST_DEGREE];
        let whole = &mut room[..self.p];
        self.multiply_denominators::<F>(count, whole);
        let Some(inverse) = self.invert::<F>(whole, scratch) else {
            return Err(self.name_uninvertible::<F>(count, scratch));
        };
        self.write_products::<F>(count - 1, whole);
        self.put_on(Shelf::Product(count - 1), &inverse[..self.p]);
        Ok(self.inversion_steps())
    }

    /// Asks for a close, all but whether the sheet is long enough and whether there is an inverse.
    fn ask_close<F: Field>(&self, count: usize, scratch: &[u16]) -> Result<(), Refusal>
        requires { count ≤ self.now.capacity }
        ensures { result_err result ≡ first_no (inversion_asked (calculus F.Field.arithmetic F.Field.recip self.now.p) self.now.capacity count self.now.sheet.now (length scratch.now)) }
    {
        self.ask_scratch(scratch)?;
        if count == 0 {
            return Err(Refusal::NoEntry);
        }
        if !self.coded_denominators::<F>(count) {
            return Err(Refusal::Shelf);
        }
        Ok(())
    }

    /// The refusal of a close: the first entry whose denominator has no inverse, and the steps of the inversions of the
    /// product and of the denominators up to that entry.
    fn name_uninvertible<F: Field>(&self, count: usize, scratch: &mut [u16]) -> Refusal
        requires within { count ≤ self.now.capacity }
        requires long_scratch { FitsInversion self.now.p scratch.old }
        requires codes_denominators { coded_denominators (calculus F.Field.arithmetic F.Field.recip self.now.p) count self.now.sheet.now ≡ true }
        ensures { result ≡ NoInverse (first_uninvertible (calculus F.Field.arithmetic F.Field.recip self.now.p) count self.now.sheet.now) (inversion_steps self.now.p * (first_uninvertible (calculus F.Field.arithmetic F.Field.recip self.now.p) count self.now.sheet.now + 1)) }
    {
        let first = self.first_uninvertible::<F>(count, scratch);
        let entry = first.map_or(0, |i| i as u32 + 1);
        Refusal::NoInverse {
            entry,
            steps: self.inversion_steps() * (entry + 1),
        }
    }
}
