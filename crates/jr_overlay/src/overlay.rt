// The nodes that a view has otherwise than the tree at its base.
ghost use Rattle.std.specs.Prelude.{◌≡◌, [], IfOk, IsTrue, OnOk, OnErr, map};
ghost use Rattle.std.specs.FinMap.{is_sorted};
ghost use Rattle.std.specs.Map.Iter.{deref_pair};
ghost use Rattle.std.specs.Option.{option_copied};
ghost use Rattle.jr_path.specs.Names.{path_cmp};
ghost use Rattle.jr_overlay.specs.Drafts.{with_steps};
ghost use Rattle.jr_overlay.specs.Merging.{changes_under, with_copy};
ghost use Rattle.jr_overlay.specs.Overlays.{change_at, edit_of, new_nodes, old_nodes, view_of};

use crate::commit::{make_places, move_in};
use crate::merge::merged;
use jr_part::Part;
use jr_path::{DeepCopy, Keyed, Path};
use jr_tree::{Edit, Node, Tree, changes};
use std::alloc::{AllocError, Global};
use std::marker::Model;

/// A node that was touched: what stood at its path at the base, and what stands there in the view.
pub struct Change {
    pub old: Option<Node>,
    pub new: Option<Node>,
}

// By hand, so that its parts are let go in one call.
impl Drop for Change {
    fn drop(self) {
        let Change { old, new } = self;
        drop(old);
        drop(new);
    }
}

/// The touched nodes of a view, by their paths. A touched node may be as it was.
pub struct Overlay {
    pub(crate) alloc: Global,
    pub(crate) changes: Keyed<Path, Change>,
}

// By hand, so that its parts are let go in one call.
impl Drop for Overlay {
    fn drop(self) {
        let Overlay { alloc: _, changes } = self;
        drop(changes);
    }
}

impl Model for Overlay {
    ghost use Rattle.jr_overlay.specs.Overlays.{Changed};

    ghost Value = { Changed };

    ghost view = { λ o. o.changes };
}

impl Overlay {
    /// A view in which nothing is touched. It takes no memory.
    pub fn new(alloc: Global) -> Overlay
        ensures { result ≡ [] }
    {
        Overlay {
            alloc,
            changes: Keyed::new(alloc),
        }
    }

    /// A view in which these nodes are touched. It takes no memory.
    pub fn of(alloc: Global, changes: Keyed<Path, Change>) -> Overlay
        ensures { result ≡ changes }
    {
        Overlay { alloc, changes }
    }

    /// The touched node at a path, if it was touched.
    pub fn at(&self, path: &Path) -> Option<&Change>
        ensures { option_copied result ≡ change_at self.now path.now }
    {
        self.changes.get(path)
    }

    /// The edit that makes the view of the tree at its base: the writes by which they differ, in the order of
    /// their items.
    pub fn edit(&self) -> Result<Edit, AllocError>
        ensures { IfOk result (λ edit. edit.writes ≡ edit_of self.now) }
    {
        changes(&self.old_tree()?, &self.new_tree()?)
    }

    // The touched nodes as they stood at the base.
    fn old_tree(&self) -> Result<Tree, AllocError>
        ensures { IfOk result (λ tree. tree ≡ old_nodes self.now) }
    {
        let mut tree = Tree::new(self.alloc);
        self.in_order();
        for (path, change) in self.changes.inner() {
            put_copy(&mut tree, path, &change.old)?;
        }
        Ok(tree)
    }

    // The touched nodes as they stand in the view.
    fn new_tree(&self) -> Result<Tree, AllocError>
        ensures { IfOk result (λ tree. tree ≡ new_nodes self.now) }
    {
        let mut tree = Tree::new(self.alloc);
        self.in_order();
        for (path, change) in self.changes.inner() {
            put_copy(&mut tree, path, &change.new)?;
        }
        Ok(tree)
    }

    /// The view as a tree, over the tree at its base.
    pub fn view(&self, base: &Tree) -> Result<Tree, AllocError>
        ensures { IfOk result (λ view. view ≡ view_of base.now self.now) }
    {
        let _ = base.len();
        let root = Path::root(self.alloc);
        let found = self.below(&base.under(&root)?, &root)?;
        copied(self.alloc, &found)
    }

    /// The touched nodes at or below a path in the place of those that are known there, in path order,
    /// all lent (JSR 283, 5.2 Traversal Access).
    pub fn below<'a>(
        &'a self,
        known: &[(&'a Path, &'a Node)],
        path: &Path,
    ) -> Result<Vec<(&'a Path, &'a Node)>, AllocError>
        requires { IsTrue (is_sorted path_cmp (map deref_pair known.now)) }
        ensures { IfOk result (λ found. map deref_pair found.items
            ≡ view_of (map deref_pair known.now) (changes_under self.now path.now)) }
    {
        self.in_order();
        merged(self.alloc, known, &self.under(path)?)
    }

    /// The touched nodes at or below a path, lent, with their paths from the root, in path order. It
    /// looks only at these.
    pub fn under<'a>(&'a self, path: &Path) -> Result<Vec<(&'a Path, &'a Change)>, AllocError>
        ensures { IfOk result (λ found. map deref_pair found.items
            ≡ changes_under self.now path.now) }
    {
        self.in_order();
        let mut found = Vec::new(self.alloc);
        for (at, change) in self.changes.inner().range(path..) {
            if !at.is_under(path) {
                break;
            }
            found.push((at, change))?;
        }
        Ok(found)
    }

    // The paths rise. It does nothing: callers learn the fact.
    fn in_order(&self)
        ensures { IsTrue (is_sorted path_cmp self.now) }
    {
        let _ = self.changes.len();
    }

    /// Makes the steps of a draft count. Of a path that is touched for the first time what is known at the base is
    /// kept beside. A refusal leaves all as it was.
    pub fn commit(
        &mut self,
        part: &Part,
        steps: Keyed<Path, Option<Node>>,
    ) -> Result<(), AllocError>
        ensures ok { OnOk result (self.new ≡ with_steps part.now.nodes self.old steps) }
        ensures err { OnErr result (self.new ≡ self.old) }
    {
        self.in_order();
        let _ = steps.len();
        make_places(&mut self.changes, self.alloc, part, &steps)?;
        move_in(&mut self.changes, steps);
        Ok(())
    }
}

// Puts a copy of a node, if there is one, at a path.
fn put_copy(tree: &mut Tree, path: &Path, node: &Option<Node>) -> Result<(), AllocError>
    ensures { OnOk result (tree.new ≡ with_copy tree.old path.now node.now) }
{
    match node {
        Some(node) => tree.insert(path.copy()?, node.copy()?),
        None => Ok(()),
    }
}

// A tree of copies of nodes that stand in path order.
fn copied(alloc: Global, nodes: &[(&Path, &Node)]) -> Result<Tree, AllocError>
    requires { IsTrue (is_sorted path_cmp (map deref_pair nodes.now)) }
    ensures { IfOk result (λ tree. tree ≡ map deref_pair nodes.now) }
{
    let mut tree = Tree::new(alloc);
    for (path, node) in nodes {
        tree.insert(path.copy()?, node.copy()?)?;
    }
    Ok(tree)
}
