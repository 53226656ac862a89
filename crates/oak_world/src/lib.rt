//! The store, the memories of the cluster nodes, the sessions' tasks and the journal together. Each
//! step is one operation: on one document, on the memory of one cluster node, or one reply.
#![tactic(auto)]

mod actor;
mod changes;
mod port;
mod start;
mod world;

pub use port::SoloPort;
pub use world::World;
