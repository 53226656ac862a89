//! The operations that a session's steps make: on one document, or on the memory of a cluster node,
//! each with its event.
#![tactic(auto)]

mod answers;
mod documents;
mod memory;

pub use answers::answer;
pub use documents::{ask, change, undo, update};
pub use memory::{base_of, leave, login, refresh, refresh_kept};
