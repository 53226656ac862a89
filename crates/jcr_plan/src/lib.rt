//! The plan of a commit: when an edit may be committed on a tree, with all its marks.
#![tactic(auto)]

mod causes;
mod changed;
mod laws;
mod plans;
mod referring;
mod touched;
mod typed;

pub use causes::{Assured, MAX_NODES};
pub use laws::{
    plans_are_proper, what_is_assured_is_not_checked, what_is_not_refused_is_a_plan,
    what_is_not_touched_keeps_the_rules, what_no_write_changes_dangles_not,
};
pub use plans::{Plan, plan_of, plan_of_change};
