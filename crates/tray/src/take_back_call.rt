//! Taking the last entry of an open tray back.

ghost use Rattle.std.specs.Prelude.{◌≡◌};
ghost use Rattle.std.specs.Result.{result_err};
ghost use Rattle.traylaw.specs.Effects.{after_take_back};

use crate::shelves::ask_sheet;
use crate::trays::OpenTray;
use refusal::Refusal;

impl OpenTray {
    /// Removes the last entry, and fills its shelves with zeros.
    pub fn take_back(&mut self, sheet: &mut [u16]) -> Result<(), Refusal>
        ensures refused_as_asked { result_err result ≡ (after_take_back self.old.p self.old.capacity self.old.count sheet.old).refusal }
        ensures entry_removed { self.new.count ≡ (after_take_back self.old.p self.old.capacity self.old.count sheet.old).count }
        ensures shelves_zero { sheet.new ≡ (after_take_back self.old.p self.old.capacity self.old.count sheet.old).sheet }
        ensures degree_stays { self.new.p ≡ self.old.p }
        ensures capacity_stays { self.new.capacity ≡ self.old.capacity }
    {
        ask_sheet(self.p, self.capacity, sheet)?;
        if self.count == 0 {
            return Err(Refusal::NoEntry);
        }
        self.count -= 1;
        self.shelves(sheet).zero_entry(self.count);
        Ok(())
    }
}
