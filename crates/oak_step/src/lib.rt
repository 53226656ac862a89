//! What a session is doing, and one step of it: on the documents, on the memory of its cluster
//! node, and on the events.
#![tactic(auto)]

mod back;
mod load;
mod settings;
mod step;
mod sweep;
mod upkeep;
mod work;

pub use step::step_work;
pub use upkeep::Upkeep;
pub use work::Work;
