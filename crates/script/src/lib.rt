//! Scripts of calls on a tray.
//!
//! `replay` performs a script on one tray, from its opening to its burn, and tells what each call answered. What
//! it did is a run of calls, so the law of all runs holds of it: `tray_law` carries that law for every run and every
//! two runs.

#![tactic(auto)]

mod perform;
mod replays;
mod scripts;

pub use replays::replay;
pub use scripts::{Answer, Call, Outcome, Replay, Stopped};
pub use traylaw::theorems::tray_law;
