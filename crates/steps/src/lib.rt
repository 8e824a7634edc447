//! Division steps on polynomials over any field, and the inverse that is read off them.

#![tactic(auto)]

mod apply;
mod inverse_call;
mod inversion;
mod questions;
mod run;
mod starts;
mod steps_call;

pub use divstep::theorems;
pub use inverse_call::inverse;
pub use steps_call::steps;
