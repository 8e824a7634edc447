//! A key as four lines of text, and its check.
//!
//! The lines are g, f, v and h, in this order, each ended by a newline; the last newline may be missing.
//! A line of trits is its letter, a space and one digit 0, 1 or 2 for each trit, the constant first.
//! The line h is its letter and, for each code of Z_4591, a space and the code in decimal.

#![tactic(auto)]

pub mod confirm;
mod cut;
pub mod key;
pub mod line;
pub mod malformed;
mod number;
