//! One step of what tidies documents: a split or a collection, over documents, what the memories
//! of all cluster nodes hold, and the events.
#![tactic(auto)]

mod answers;
mod asks;
mod laws;
mod steps;
mod tidying;

pub use laws::{collections_are_steps, looks_are_steps, splits_are_steps, steps_have_their_events};
pub use steps::tidy;
pub use tidying::{Tidied, Tidying};
