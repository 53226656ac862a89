//! What node types make of themselves: the auto-created properties and children of a node that a command puts (JSR 283,
//! 3.7.2.3 Auto-Created), before any command is known.
#![tactic(auto)]

mod completing;
mod fill;
mod laws;

pub use completing::{MissingChild, check_type, complete, complete_new};
pub use fill::{Filling, next_text};
pub use laws::{completing_keeps_identifiers, completing_keeps_trees, completing_stays_below};
