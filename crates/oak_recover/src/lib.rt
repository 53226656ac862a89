//! The recovery of a stopped cluster node by another: what the node never committed is undone, what it committed is
//! published, and what it held is given back (Oak, DocumentNodeStore: "Cluster Node Metadata", recovery).
#![tactic(auto)]

mod entries;
mod laws;
mod reading;
mod recovery;
mod stage;

pub use laws::{recoveries_end_by_the_definition, recoveries_tell_what_the_root_says};
pub use recovery::Recovery;
pub use stage::Stage;
