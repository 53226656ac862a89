//! The built-in node types (JSR 283, 3.7.11 Standard Application Node Types).
#![tactic(auto)]

mod sketch;
mod table;

pub use table::builtin;
