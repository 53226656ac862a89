//! What commits changed: the documents are read between two vectors.
//!
//! JSR 283, section 12 (Observation), over Oak, DocumentNodeStore: "Reading". Of each item the entries are read that
//! are committed and that the later vector sees; each that the earlier one doesn't see is a change of the item.
#![tactic(auto)]

mod changes;
mod said;
mod states;

pub use changes::{ChangesReader, changes_are_read};
