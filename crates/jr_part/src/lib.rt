//! A part of a tree: what was read of a tree so far, and what still has to be asked of it.
#![tactic(auto)]

mod follow;
mod laws;
mod need;
mod part;

pub use laws::{children_rise, puts_agree, subtrees_are_whole};
pub use need::Need;
pub use part::Part;
