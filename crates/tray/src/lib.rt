//! A tray of fractions of polynomials, which are divided with one inversion for all of them.
//!
//! An open tray is filled with entries, a numerator over a denominator each. A close inverts the product of
//! all denominators once. A closed tray is drawn from, the last entry first: each draw gives the quotient of
//! one entry for three products. A burn ends a tray. What each call does is defined in the crate `traylaw`,
//! where the law of all runs of calls is proved.

#![tactic(auto)]

mod burn_call;
mod close_call;
mod closing;
mod draw_call;
mod drawing;
mod open_call;
mod polynomials;
mod put_call;
mod shelves;
mod take_back_call;
mod trays;

pub use open_call::open;
pub use traylaw::theorems;
pub use trays::{BurnOwed, Closed, ClosedTray, Open, OpenTray, Tray};
