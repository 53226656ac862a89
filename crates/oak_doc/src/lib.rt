//! Documents of the store, and the one step that changes a document.
//!
//! Oak, DocumentNodeStore: "Node Document". A document keeps, by revision, what commits wrote of one node;
//! there are previous documents, to which a split moved old entries, and one document of settings.
#![tactic(auto)]

mod asks;
mod change;
mod condition;
mod copies;
mod document;
mod step;
mod update;

pub use asks::{Ask, Collected, MemoryAsk, Recovered, RemoveOut, Reply, SplitEnd};
pub use change::put_value;
pub use document::{Document, PrevEntry};
pub use step::apply_op;
pub use update::{Change, Cond, EntryKey, Field, Kept, OpFault, UpdateOp};
