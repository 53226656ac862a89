//! Workers: a script's sessions are run to their ends by threads, whatever its schedule.
#![tactic(auto)]

mod gate;
mod hands;
mod port;
mod worker;
mod workers;

pub use gate::{Gate, NoGate};
pub use jr_stage::run_steps;
pub use workers::run_workers;
