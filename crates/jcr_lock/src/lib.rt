//! Locks and checked-in nodes: which of them covers a path, and the edits that lock and unlock a node.
#![tactic(auto)]

mod covers;
mod edits;

pub use covers::{LockNames, frozen_by, is_deep_lock, lock_covers, locked_by};
pub use edits::{lock_edit, unlock_edit};
