//! The splitter, which moves old entries of a document to a previous document (Oak, DocumentNodeStore: "Previous
//! documents").
#![tactic(auto)]

mod moving;
mod reading;
mod splitter;
mod stage;

pub use splitter::{Splitter, splitters_move_what_is_old};
pub use stage::Stage;
