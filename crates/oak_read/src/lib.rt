//! What documents mean: the node at a path, as it is seen from a pin, and the names of its children.
//!
//! Oak, DocumentNodeStore: "Reading". An entry counts where it is committed and the base sees it; for each
//! item the latest such entry counts, over the node's document and its previous documents.
#![tactic(auto)]

mod children;
mod committed;
mod latest;
mod node;
mod reader;
mod wanted;

pub use children::{children_of_documents, find_children};
pub use committed::{commit_root_of, counts};
pub use node::{documents_at, find_node, node_document};
pub use reader::{ReadOut, Reader, readers_end_in_what_documents_mean};
pub use wanted::{Left, previous_wanted, roots_wanted};
