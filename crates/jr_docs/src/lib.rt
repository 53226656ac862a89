//! The JSON of documents, and the lines that are printed of them.
//!
//! Oak, DocumentNodeStore: "Node Document". The members of an object stand by the bytes of their
//! names.
#![tactic(auto)]

mod forms;
mod writing;

pub use writing::{document_json, document_line};
