//! The generator of scripts: from a seed, sessions that write, save, read and refresh, and a schedule of their turns.
#![tactic(auto)]

mod commands;
mod draws;
mod laws;
mod rounds;
mod script;

pub use laws::{generated_scripts_are_read, scripts_are_whole};
pub use script::generate;
