//! Burning a tray, in either state.

ghost use Rattle.std.specs.Prelude.{◌≡◌};
ghost use Rattle.traylaw.specs.Effects.{after_burn};

use crate::trays::{BurnOwed, Tray};

impl<S> Tray<S> {
    /// Ends the tray and what is owed for it: fills its shelves with zeros, as far as the sheet reaches, and
    /// reports how many entries were left. It is never refused.
    pub fn burn(self, owed: BurnOwed, sheet: &mut [u16]) -> usize
        ensures entries_left { result ≡ (after_burn self.p self.capacity self.count sheet.old).report }
        ensures shelves_zero { sheet.new ≡ (after_burn self.p self.capacity self.count sheet.old).sheet }
    {
        self.clear(sheet);
        let BurnOwed { seal: () } = owed;
        let Tray {
            p: _,
            capacity: _,
            count,
            state: _,
        } = self;
        count
    }
}
