//! Documents from which a repository can be opened: how far they are committed, the tree that they
//! show there, and the rules that they keep.
//!
//! Oak, DocumentNodeStore: "Node Document", "Clustering".
#![tactic(auto)]

mod committed;
mod numbers;
mod revisions;
mod roots;
mod rules;
mod shown;
mod vectors;
mod whole;

pub use committed::ById;
pub use numbers::greatest_number;
pub use rules::{Broken, first_broken};
pub use whole::{Meaning, meant};
