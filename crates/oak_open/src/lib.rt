//! A repository opened from documents: what it begins with, or why it can't be opened from them.
//!
//! Oak, DocumentNodeStore: "Node Document", "Clustering".
#![tactic(auto)]

mod documents;
mod fault;
mod open;

pub use documents::{Opening, changes_at_opening, opened_documents, stays_opened};
pub use fault::OpenFault;
pub use open::{Opened, open_documents};
