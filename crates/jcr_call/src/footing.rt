// What a command that commits is run on.
use jcr_plan::Assured;
use jr_path::Text;
use jr_tree::{Tree, Who};
use jr_types::Registry;

/// What a command that commits is run on: the node types, the session at its base, the tree there,
/// the lock tokens that the session holds, and what is known of that tree, so that it need not be
/// checked again (JSR 283, 10.11 Saving): whether it is one at all, with its root and each node's
/// parent, and what the plan of an edit is assured of.
#[derive(Clone, Copy)]
pub struct Footing<'a> {
    pub types: &'a Registry,
    pub who: &'a Who,
    pub base: &'a Tree,
    pub tokens: &'a [Text],
    pub is_tree: bool,
    pub assured: Assured,
}
