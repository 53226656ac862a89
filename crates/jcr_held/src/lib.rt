//! What a session holds between its commands: the part of the tree at its base that it has read,
//! its pending changes, its lock tokens, its cursor over the changes, and how many identifiers it
//! has drawn (JSR 283, 10.11 Saving; 12 Observation; 17.5 Lock Token).
#![tactic(auto)]

mod catching_up;
mod committing;
mod held;
mod laws;
mod loading;
mod looking;
mod observing;
mod references;
mod seeing;
mod splits;

pub use held::Held;
pub use laws::replies_without_commit_keep_tokens;
pub use splits::NextSplit;
