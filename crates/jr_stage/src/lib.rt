//! Schedules: a script is run turn by turn as its schedule says, and the schedule cuts the journal
//! that comes of it.
#![tactic(auto)]

mod flight;
mod laws;
mod run;
mod stage;
mod turns;

pub use laws::cuts_grow;
pub use run::run_steps;
pub use stage::{session_of, world_of};
