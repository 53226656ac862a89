//! Pending changes over a part of a tree: the nodes that a view has otherwise than the tree at its base, and drafts
//! of what a command makes (JSR 283, 10.1 Types of Write Methods; 10.11 Saving).
#![tactic(auto)]

mod commit;
mod draft;
mod laws;
mod merge;
mod overlay;
mod sight;

pub use draft::Draft;
pub use laws::{
    commits_step_views, edits_are_the_changes, known_bases_agree, known_views_agree,
    moves_keep_trees, puts_keep_trees, removals_keep_trees, steps_keep_trees, views_begin,
    views_show_changes,
};
pub use overlay::{Change, Overlay};
pub use sight::Sight;
