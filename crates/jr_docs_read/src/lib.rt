//! Documents from their JSON: what is printed of a document is read as the document again, and all
//! else is none.
//!
//! Oak, DocumentNodeStore: "Node Document".
#![tactic(auto)]

mod fault;
mod fields;
mod forms;
mod maps;
mod reading;
mod texts;

pub use fault::DocFault;
pub use reading::read_document;
