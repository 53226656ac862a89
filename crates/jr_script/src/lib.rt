//! Scripts of sessions and their schedule, from their JSON.
#![tactic(auto)]

mod laws;
mod numbers;
mod reading;
mod schedule;
mod script;
mod types;

pub use laws::{scripts_are_unique, scripts_are_within};
pub use reading::{MAX_CLUSTERS, MAX_COMMANDS, MAX_SESSIONS, read_script};
pub use script::{Entry, Script, ScriptFault};
