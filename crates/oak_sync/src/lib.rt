//! The background work of a cluster node: it tells the other nodes, through the root's document, how far its
//! own changes are to be seen, and learns from there how far theirs are (Oak, DocumentNodeStore:
//! "Background operations").
#![tactic(auto)]

mod back_read;
mod back_write;
mod laws;
mod paths;
mod stage;

pub use back_read::BackRead;
pub use back_write::BackWrite;
pub use laws::{back_reads_end, back_writes_ask, back_writes_publish, one_way_up};
pub use paths::upward;
pub use stage::Stage;
