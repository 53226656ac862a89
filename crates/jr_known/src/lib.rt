//! What a session knows of the tree at its base: the part that it has read, and the whole tree at
//! an earlier base while what changed since is read (JSR 283, 10.11 Saving).
#![tactic(auto)]

mod child_names;
mod earlier;
mod gone;
mod held_part;
mod renewal;

pub use earlier::EarlierTree;
pub use held_part::HeldPart;
