//! Commands that add nodes with what node types bring with them (JSR 283, 3.7.2.3 Auto-Created; 10.4 Adding Nodes), and
//! laws of these commands and of those that change a node's type and mixins.
#![tactic(auto)]

mod adding;
mod laws;
mod subtree;

pub use adding::add;
pub use laws::{
    adding_reads_below_and_above, changing_types_reads_below, makings_keep_nodes,
    makings_keep_trees, makings_stay_below, mixing_reads_below_and_its_history,
    mixing_stays_below_and_in_its_history, trees_read_below_above_and_histories,
    trees_stay_below_and_in_histories, unmixing_reads_the_node,
};
pub use subtree::tree;
