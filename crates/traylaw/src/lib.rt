//! A tray of fractions of polynomials, which are divided with one inversion for all of them.

#![tactic(auto)]

pub mod theorems;
