//! The collector: it takes the bound of a collection, and drops what is garbage of it, document by document.
//!
//! Oak, DocumentNodeStore: "Revision garbage collection", narrowed: a bound of two vectors, at most all that is held,
//! decides alone; no status is asked of a commit root.
#![tactic(auto)]

mod bound;
mod collector;
mod garbage;
mod reading;
mod stage;

pub use collector::{
    Collector, collectors_ask_for_garbage, collectors_collect_each_document,
    collectors_take_the_least, updates_leave_no_garbage,
};
pub use stage::Stage;
