//! Trees and edits: a node for each path, the writes that change them, and plain data that several
//! crates share.
#![tactic(auto)]

mod apply;
mod difference;
mod edit;
mod laws;
mod shared;
mod tree;

pub use difference::changes;
pub use edit::{Edit, Write};
pub use laws::{
    changes_are_proper, changes_lead_there, edits_date_nodes, edits_move_nodes,
    edits_write_properties, initial_tree_is_a_tree, proper_edits_give_trees,
    proper_edits_write_properties,
};
pub use shared::{CommitChanges, Datum, ItemChange, Refusal, Who};
pub use tree::{Node, Tree, is_child};
