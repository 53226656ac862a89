//! The sweep of a cluster node: what is found of its changes up to the root's `_lastRev` is committed from then on,
//! without a look at commit roots (Oak, DocumentNodeStore: "Sweep revision").
#![tactic(auto)]

mod laws;
mod stage;
mod sweeper;

pub use laws::{sweeps_miss_no_node, sweeps_pass_all_nodes, sweeps_teach_one_entry};
pub use stage::Stage;
pub use sweeper::Sweeper;
