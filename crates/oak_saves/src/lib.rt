//! The steps of a commit, from its draw to its end: on the documents, on the memory of its cluster
//! node, and on the events.
#![tactic(auto)]

mod commit;

pub use commit::{begin, end, update};
