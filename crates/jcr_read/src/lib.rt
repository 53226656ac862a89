//! What reading commands answer of a session's view (JSR 283, 5 Reading), over a part of a tree or over a whole one.
#![tactic(auto)]

mod reading;

pub use reading::{by_identifier, identified, read_nodes, referring, refs, versions};
