// The tree after a node is brought to a frozen node.
ghost use Rattle.std.specs.Prelude.{◌≡◌, IfOk, OnOk, drop, length};
ghost use Rattle.std.specs.List.{fold};
ghost use Rattle.std.specs.Option.{option_copied};
ghost use Rattle.jr_tree.specs.Trees.{born_of, subtree_of};
ghost use Rattle.jcr_restore.specs.Restored.{brought, fate_below, is_brought, is_staying, place_of, restored, with_brought, with_staying};

use crate::fates::fate_below;
use crate::properties::brought_props;
use jcr_frozen::{names_below, onto};
use jr_path::{DeepCopy, Path};
use jr_rev::Revision;
use jr_tree::{Node, Tree};
use jr_types::Registry;
use std::alloc::{AllocError, Global};

/// What a restore works on: the node at `path` of the tree, and the frozen node that it is brought to.
#[derive(Clone, Copy)]
pub(crate) struct Bringing<'a> {
    pub(crate) alloc: Global,
    pub(crate) types: &'a Registry,
    pub(crate) tree: &'a Tree,
    pub(crate) path: &'a Path,
    pub(crate) frozen: &'a Path,
}

impl Bringing<'_> {
    /// The node and what is below it, after it is brought to the frozen node.
    pub(crate) fn restored(&self) -> Result<Tree, AllocError>
        ensures { IfOk result (λ tree. tree ≡ restored self.now.types.now self.now.tree.now self.now.path.now self.now.frozen.now) }
    {
        let mut tree = Tree::new(self.alloc);
        self.put_staying(&mut tree)?;
        self.put_brought(&mut tree)?;
        Ok(tree)
    }

    // The nodes at or below that stay.
    fn put_staying(&self, tree: &mut Tree) -> Result<(), AllocError>
        ensures { OnOk result (tree.new ≡ fold (with_staying self.now.types.now self.now.tree.now self.now.path.now self.now.frozen.now) tree.old (subtree_of self.now.tree.now self.now.path.now)) }
    {
        for (at, node) in &self.tree.under(self.path)? {
            self.put_if_staying(tree, at, node)?;
        }
        Ok(())
    }

    fn put_if_staying(&self, tree: &mut Tree, at: &Path, node: &Node) -> Result<(), AllocError>
        ensures { OnOk result (tree.new ≡ with_staying self.now.types.now self.now.tree.now self.now.path.now self.now.frozen.now tree.old (at.now, node.now)) }
    {
        if self.is_staying(at)? {
            tree.insert(at.copy()?, node.copy()?)?;
        }
        Ok(())
    }

    // Whether the node at or below stays.
    fn is_staying(&self, at: &Path) -> Result<bool, AllocError>
        ensures { IfOk result (λ answer. answer ≡ is_staying (fate_below self.now.types.now self.now.tree.now self.now.path.now self.now.frozen.now (drop (length self.now.path.now) at.now))) }
    {
        let names = names_below(self.path, at);
        Ok(fate_below(
            self.alloc,
            self.types,
            self.tree,
            self.path,
            self.frozen,
            names,
        )?
        .is_staying())
    }

    // The nodes that are brought to a frozen node at or below the one.
    fn put_brought(&self, tree: &mut Tree) -> Result<(), AllocError>
        ensures { OnOk result (tree.new ≡ fold (with_brought self.now.types.now self.now.tree.now self.now.path.now self.now.frozen.now) tree.old (subtree_of self.now.tree.now self.now.frozen.now)) }
    {
        for (from, node) in &self.tree.under(self.frozen)? {
            self.put_if_brought(tree, from, node)?;
        }
        Ok(())
    }

    fn put_if_brought(&self, tree: &mut Tree, from: &Path, node: &Node) -> Result<(), AllocError>
        ensures { OnOk result (tree.new ≡ with_brought self.now.types.now self.now.tree.now self.now.path.now self.now.frozen.now tree.old (from.now, node.now)) }
    {
        if self.is_brought(from)? {
            let place = self.place_of(from)?;
            let node = self.brought(&place, node)?;
            tree.insert(place, node)?;
        }
        Ok(())
    }

    /// Whether the node of a frozen node is brought to it.
    pub(crate) fn is_brought(&self, from: &Path) -> Result<bool, AllocError>
        ensures { IfOk result (λ answer. answer ≡ is_brought (fate_below self.now.types.now self.now.tree.now self.now.path.now self.now.frozen.now (drop (length self.now.frozen.now) from.now))) }
    {
        let names = names_below(self.frozen, from);
        Ok(fate_below(
            self.alloc,
            self.types,
            self.tree,
            self.path,
            self.frozen,
            names,
        )?
        .is_brought())
    }

    /// Where the node of a frozen node stands.
    pub(crate) fn place_of(&self, from: &Path) -> Result<Path, AllocError>
        ensures { IfOk result (λ place. place ≡ place_of self.now.path.now self.now.frozen.now from.now) }
    {
        onto(self.path, names_below(self.frozen, from))
    }

    // The node at a place, brought to a frozen node.
    fn brought(&self, place: &Path, frozen: &Node) -> Result<Node, AllocError>
        ensures { IfOk result (λ node. node ≡ brought self.now.types.now self.now.tree.now place.now frozen.now) }
    {
        let old = self.tree.get(place);
        let props = brought_props(self.alloc, self.types, old, frozen)?;
        Ok(Node {
            props,
            born: born_of(old),
        })
    }
}

// The revision that added a node.
fn born_of(node: Option<&Node>) -> Option<Revision>
    ensures { result ≡ born_of (option_copied node.entry) }
{
    match node {
        Some(node) => node.born,
        None => None,
    }
}
