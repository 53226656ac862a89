//! Marks of commits, which of them clash, and the commit root of a commit.
#![tactic(auto)]

mod mark;
mod marked;

pub use mark::{Mark, MarkAt, clashes, order_of_marks, symmetry_of_clashes};
pub use marked::{commit_root, marked_paths};
