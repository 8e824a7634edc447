//! Division steps on polynomials, as definitions, and what holds of them over every field; `steps` has the calls.

#![tactic(auto)]

pub mod theorems;
