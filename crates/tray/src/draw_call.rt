//! Drawing the quotient of the last entry of a closed tray.

ghost use Rattle.std.specs.Prelude.{◌≡◌, length, replicate};
ghost use Rattle.std.specs.Result.{result_err};
ghost use Rattle.traylaw.specs.Calculus.{calculus};
ghost use Rattle.traylaw.specs.Effects.{after_draw};

use crate::shelves::ask_sheet;
use crate::trays::ClosedTray;
use field::Field;
use refusal::Refusal;
use scratch::Wipe;

impl ClosedTray {
    /// Writes the quotient of the last entry, its numerator over its denominator, and removes the entry.
    pub fn draw<F: Field>(
        &mut self,
        sheet: &mut [u16],
        out: &mut [u16],
        scratch: &mut [u16],
    ) -> Result<(), Refusal>
        ensures scratch_zero { scratch.new ≡ replicate (length scratch.old) 0 }
        ensures refused_as_asked { result_err result ≡ (after_draw (calculus F.Field.arithmetic F.Field.recip self.old.p) self.old.capacity self.old.count sheet.old out.old (length scratch.old)).refusal }
        ensures entry_removed { self.new.count ≡ (after_draw (calculus F.Field.arithmetic F.Field.recip self.old.p) self.old.capacity self.old.count sheet.old out.old (length scratch.old)).count }
        ensures sheet_drawn { sheet.new ≡ (after_draw (calculus F.Field.arithmetic F.Field.recip self.old.p) self.old.capacity self.old.count sheet.old out.old (length scratch.old)).sheet }
        ensures out_is_quotient { out.new ≡ (after_draw (calculus F.Field.arithmetic F.Field.recip self.old.p) self.old.capacity self.old.count sheet.old out.old (length scratch.old)).out }
        ensures degree_stays { self.new.p ≡ self.old.p }
        ensures capacity_stays { self.new.capacity ≡ self.old.capacity }
    {
        let guard = Wipe { scratch };
        ask_sheet(self.p, self.capacity, sheet)?;
        let mut shelves = self.shelves(sheet);
        shelves.ask_scratch(guard.scratch)?;
        if out.len() != self.p {
            return Err(Refusal::Length);
        }
        if self.count == 0 {
            return Err(Refusal::NoEntry);
        }
        if !shelves.coded_last::<F>(self.count - 1) {
            return Err(Refusal::Shelf);
        }
        shelves.draw_last::<F>(self.count - 1, out, guard.scratch);
        self.count -= 1;
        Ok(())
    }
}
