//! What a committer asks of the store: a write of each marked document, and the last write on the commit root (Oak,
//! DocumentNodeStore: commit).
#![tactic(auto)]

mod committer;
mod laws;
mod look;
mod met;
mod ops;
mod outcome;
mod places;
mod plan;
mod stage;

pub use committer::Committer;
pub use laws::looks_pass_previous_documents;
pub use outcome::CommitEnd;
pub use stage::Stage;
