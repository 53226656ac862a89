//! The memory of one cluster node: its head, the revisions that it drew, its pins, and the paths
//! that it has still to publish. A node that is stopped is recovered by another.
//!
//! Oak, DocumentNodeStore: "Revisions", "Background operations". A cluster node draws the revisions
//! of its commits, and publishes the changed paths (`_lastRev`) in the background.
#![tactic(auto)]

mod drawn;
mod laws;
mod memory;
mod pending;
mod pins;

pub use laws::{
    changes_are_told, draws_rise, others_are_learned, recovery_ends_all, rule_of_heads,
};
pub use memory::{Awaits, NodeMem};
pub use pending::{Note, Pending};
