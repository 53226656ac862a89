//! Commands that change what a node is: its type and its mixins, with the items that are made of themselves and the history
//! of a node that becomes versionable (JSR 283, 3.7.2.3 Auto-Created; 10.10 Node Types; 3.13.2 Version History).
#![tactic(auto)]

mod history;
mod mixins;
mod retype;
mod unmix;

pub use history::{due_history, version_storage};
pub use mixins::mixin;
pub use retype::set_type;
pub use unmix::unmixin;
