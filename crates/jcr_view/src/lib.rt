//! A session's view: pending changes over a part of a tree, the commands that read and write it, and what they ask for
//! first (JSR 283, 5 Reading; 10 Writing; 10.11 Saving). The same by plain calls on views that are whole trees.
#![tactic(auto)]

mod commands;
mod laws;
mod needs;
mod pending;
mod rebase;
mod whole;
mod writing;

pub use commands::is_viewed;
pub use laws::{
    commands_keep_trees, each_round_learns, needs_are_enough, rebases_count, rebases_keep_trees,
    rebasing_on_the_same_tree_changes_nothing, rounds_end, steps_count, whole_trees_are_asked_for,
    whole_trees_lack_no_node,
};
pub use pending::Pending;
pub use whole::{evaluate, move_view};
