//! Identifiers of nodes, the references that name them, and the histories of versions, which stand by identifier.
#![tactic(auto)]

mod drawn;
mod histories;
mod identifiers;
mod laws;
mod references;
mod targets;

pub use drawn::{MAX_IDS, latest_date};
pub use histories::{HistoryWrites, history_writes, version_names};
pub use identifiers::{by_id, identifier, identifier_number};
pub use laws::identifiers_are_uuids;
pub use references::{dangling, referrers};
pub use targets::targets_of;
