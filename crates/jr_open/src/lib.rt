//! A repository of some node types opened from documents: what it begins with, or the rule that
//! they break.
//!
//! Oak, DocumentNodeStore: "Node Document", "Clustering"; JSR 283, 3.7 Node Types.
#![tactic(auto)]

mod opening;
mod order;
mod types;

pub use opening::open;
pub use order::are_in_order;
