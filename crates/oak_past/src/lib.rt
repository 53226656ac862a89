//! What a journal says, by plain calls that go over all its events.
#![tactic(auto)]

mod changed;
mod heads;
mod machine;
mod meeting;
mod past;
mod sessions;
mod since;
mod tree;

pub use changed::changes_between;
pub use heads::{local, local_head, published};
pub use machine::follows;
pub use past::{is_committed, is_ended, refusal_of};
pub use sessions::{
    base_of, is_attached, is_drawing, is_recovered, kept_checkpoint, last_checkpoint, next_index,
    was_stopped,
};
pub use since::{drawn_since, refreshed_since};
pub use tree::{begin_tree, tree_among, tree_at, tree_from};
