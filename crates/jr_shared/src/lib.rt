//! A world that worker threads share: the calls of a world for its sessions, each under one hold of
//! a counted lock, and the port of a session over them.
#![tactic(auto)]

mod locked;
mod port;
mod shared;

pub use locked::{LockedWorld, SessionPart, WorldFrame};
pub use port::{SharedPort, Taken};
pub use shared::SharedWorld;
