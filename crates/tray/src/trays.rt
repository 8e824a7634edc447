//! A tray in either of its two states, and the burn that is owed for it. None of them can be copied, let go or made
//! outside of this crate: an open tray is closed or burnt, a closed one is burnt, and only a burn takes what is owed.

ghost use Rattle.std.specs.Prelude.{◌≡◌, ◌≤◌};
ghost use Rattle.traylaw.specs.Sheets.{most_entries, clear_sheet};

use std::marker::PhantomData;

/// The state of a tray that takes entries.
pub enum Open {}

/// The state of a tray that is drawn from.
pub enum Closed {}

/// A tray in state `S`: the degree p of its polynomials, how many entries it can hold, and how many it holds. Its
/// numbers are on a sheet, memory that the caller lends at each call. (p is a plain number with its bounds here: a
/// `Degree` tells them only where it is asked, and proofs in other crates take them from the tray.)
pub struct Tray<S> {
    pub(crate) p: usize,
    pub(crate) capacity: usize,
    pub(crate) count: usize,
    pub(crate) state: PhantomData<S>,
    ghost degree_least: { 2 ≤ p },
    ghost degree_most: { p ≤ 1277 },
    ghost capacity_most: { capacity ≤ most_entries },
    ghost count_most: { count ≤ capacity },
}

/// A tray that takes entries.
pub type OpenTray = Tray<Open>;

/// A tray that is drawn from.
pub type ClosedTray = Tray<Closed>;

impl<S> Tray<S> {
    /// Fills the shelves with zeros, as far as the sheet reaches.
    pub(crate) fn clear(&self, sheet: &mut [u16])
        ensures { sheet.new ≡ clear_sheet self.now.p self.now.capacity sheet.old }
    {
        let reached = sheet.len().min(3 * self.p * self.capacity);
        sheet[..reached].fill(0);
    }
}

/// The burn that is owed for a tray, from its opening on and in every state. It holds nothing; its field
/// keeps others from making one.
pub struct BurnOwed {
    pub(crate) seal: (),
}
