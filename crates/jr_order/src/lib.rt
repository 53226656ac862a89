//! The order of the children of a node, as its types say (JSR 283, 23 Orderable Child Nodes).
#![tactic(auto)]

mod children;
mod moved;

pub use children::{Birth, ordered};
pub use moved::{listing, moved_before};
