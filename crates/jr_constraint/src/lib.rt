//! Constraints on values: ranges of numbers, and literal texts (JSR 283, 3.7.3.6 Value Constraints).
#![tactic(auto)]

mod constraints;
mod ranges;

pub use constraints::{is_constraint, meets_one};
