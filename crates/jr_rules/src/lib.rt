//! The nine rules that a node keeps by its types (JSR 283, 3.7 Node Types).
#![tactic(auto)]

mod broken;
mod checking;
mod children;
mod laws;
mod own_types;
mod properties;

pub use checking::{TypesOut, check, check_among};
pub use laws::{
    the_initial_tree_meets_the_built_in_types, what_lists_no_violation_meets_the_rules,
};
