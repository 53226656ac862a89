//! A tree with an edit made, without a copy of the tree: the few nodes that the edit writes stand over a tree that is
//! lent (JSR 283, 10.11 Saving).
#![tactic(auto)]

mod changed;
mod edited;
mod laws;

pub use edited::Edited;
pub use laws::edits_make_views;
