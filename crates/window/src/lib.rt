//! A batch of at most sixteen division steps, on arrays by value; `steps` applies its matrix to whole lists.

#![tactic(auto)]

mod arrays;
pub mod batch;
mod choice;
mod window;

pub use window::{BATCH, Window};
