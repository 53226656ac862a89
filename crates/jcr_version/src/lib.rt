//! Versions (JSR 283, 15 Versioning): the edits that check a node in and out, and those of labels.
#![tactic(auto)]

mod checkin;
mod checkout;
mod labels;
mod limits;
mod writes;

pub use checkin::{checked_in_version, checkin_edit};
pub use checkout::checkout_edit;
pub use labels::{label_edit, unlabel_edit};
pub use limits::within_limits;
