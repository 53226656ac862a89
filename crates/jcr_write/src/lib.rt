//! Commands that write items and make nothing of themselves: setting and unsetting properties, removing and moving
//! nodes, and ordering children (JSR 283, 10 Writing).
#![tactic(auto)]

mod laws;
mod moves;
mod order;
mod places;
mod properties;

pub use laws::{
    moves_read_both_ends, orders_read_the_parent, properties_read_their_node,
    removals_read_subtrees, writes_keep_trees,
};
pub use moves::{move_to, remove};
pub use order::order_before;
pub use places::{above, check_path, check_place, put_node, with_property, without_property};
pub use properties::{set, unset};
