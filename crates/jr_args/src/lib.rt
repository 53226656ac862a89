//! Commands of scripts from their JSON: their names, the arguments that stand behind each, and the place of what breaks
//! a rule.
#![tactic(auto)]

mod arguments;
mod commands;
mod fault;
mod tree;
mod values;
mod word;

pub use commands::command;
pub use fault::{Fault, Step, pointer};
