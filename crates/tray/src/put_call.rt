//! Putting an entry into an open tray.

ghost use Rattle.std.specs.Prelude.{◌≡◌};
ghost use Rattle.std.specs.Result.{result_err};
ghost use Rattle.traylaw.specs.Calculus.{calculus};
ghost use Rattle.traylaw.specs.Effects.{after_put};

use crate::shelves::ask_sheet;
use crate::trays::OpenTray;
use field::{Field, all_codes};
use refusal::Refusal;

impl OpenTray {
    /// Puts a numerator over a denominator into the tray, as its last entry.
    pub fn put<F: Field>(
        &mut self,
        sheet: &mut [u16],
        numerator: &[u16],
        denominator: &[u16],
    ) -> Result<(), Refusal>
        ensures refused_as_asked { result_err result ≡ (after_put (calculus F.Field.arithmetic F.Field.recip self.old.p) self.old.capacity self.old.count sheet.old numerator.now denominator.now).refusal }
        ensures entry_counted { self.new.count ≡ (after_put (calculus F.Field.arithmetic F.Field.recip self.old.p) self.old.capacity self.old.count sheet.old numerator.now denominator.now).count }
        ensures sheet_holds_entry { sheet.new ≡ (after_put (calculus F.Field.arithmetic F.Field.recip self.old.p) self.old.capacity self.old.count sheet.old numerator.now denominator.now).sheet }
        ensures degree_stays { self.new.p ≡ self.old.p }
        ensures capacity_stays { self.new.capacity ≡ self.old.capacity }
    {
        ask_sheet(self.p, self.capacity, sheet)?;
        if numerator.len() != self.p || denominator.len() != self.p {
            return Err(Refusal::Length);
        }
        if !(all_codes::<F>(numerator) & all_codes::<F>(denominator)) {
            return Err(Refusal::NotACode { entry: 0 });
        }
        if self.count >= self.capacity {
            return Err(Refusal::Full);
        }
        self.shelves(sheet)
            .put_entry(self.count, numerator, denominator);
        self.count += 1;
        Ok(())
    }
}
