//! Restoring a node to one of its versions (JSR 283, 15.7 Restore).
#![tactic(auto)]

mod conflicts;
mod edits;
mod fates;
mod laws;
mod properties;
mod restored;

pub use edits::restore_edit;
pub use laws::{
    check_ins_leave_what_versions_leave_out, restores_bring_nodes_back,
    restores_undo_changes_since_a_check_in,
};
