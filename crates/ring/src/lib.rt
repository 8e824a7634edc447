//! Polynomials modulo x^p − x − 1 over any field: p codes, the constant first.

#![tactic(auto)]

mod addition;
mod degree;
mod multiplication;
mod questions;
pub mod theorems;

pub use addition::sum;
pub use degree::{Degree, GREATEST_DEGREE, LEAST_DEGREE};
pub use multiplication::product;
