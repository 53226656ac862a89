//! What a version keeps of a node (JSR 283, 3.13.9 Frozen Node), and version histories as commands find them.
#![tactic(auto)]

mod attributes;
mod frozen;
mod histories;

pub use attributes::Asked;
pub use frozen::{
    Share, first_aborting, is_frozen_along, is_frozen_name, is_versionable, names_below, onto,
    push_frozen, put_property, put_told, share_of,
};
pub use histories::{
    find_history, find_version, is_named, is_numbered, number_at, one_reference, own_child,
    references_in, version_name, versions_of,
};
