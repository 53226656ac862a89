// A tree with an edit made.
ghost use Rattle.std.specs.Prelude.{◌≡◌, ◌<◌, IfOk, IsTrue, None, cond, is_some, length, map, nat_lt};
ghost use Rattle.std.specs.FinMap.{is_sorted};
ghost use Rattle.std.specs.Map.Iter.{deref_pair};
ghost use Rattle.std.specs.Option.{option_copied};
ghost use Rattle.jr_path.specs.Names.{last_name, path_cmp};
ghost use Rattle.jr_tree.specs.Edits.{applied};
ghost use Rattle.jr_tree.specs.Trees.{children_of, is_child_of, node_at, property_at, subtree_of};

use crate::changed::{changes_between, tree_after, written_nodes};
use jr_overlay::Overlay;
use jr_path::{DeepCopy, Keyed, Name, Path};
use jr_tree::{Edit, Node, Tree, is_child};
use jr_value::Property;
use std::alloc::{AllocError, Global};
use std::marker::Model;

/// A tree with an edit made: contracts see its nodes. The tree itself is lent, and only the nodes that
/// the edit writes are copied; what is asked costs what it asks for.
pub struct Edited<'a> {
    alloc: Global,
    tree: &'a Tree,
    changes: Overlay,
    // How many of the written nodes stood before the edit, and how many stand after it.
    before: usize,
    after: usize,
}

// By hand, so that its parts are let go in one call.
impl Drop for Edited<'_> {
    fn drop(self) {
        let Edited {
            alloc: _,
            tree: _,
            changes,
            before: _,
            after: _,
        } = self;
        drop(changes);
    }
}

impl<'a> Model for Edited<'a> {
    ghost use Rattle.jr_tree.specs.Trees.{Nodes};
    ghost use Rattle.jr_overlay.specs.Overlays.{view_of};
    ghost use Rattle.jr_edited.specs.Edited.{IsCounted};

    ghost Value = { Nodes };

    ghost view = { λ e. view_of e.tree.now e.changes };

    ghost invariant = { λ e. IsCounted e.tree.now e.changes e.before e.after };
}

impl<'a> Edited<'a> {
    /// A tree in which nothing is changed. It takes no memory.
    pub fn unchanged(alloc: Global, tree: &'a Tree) -> Edited<'a>
        ensures { result ≡ tree.now }
    {
        let _ = tree.len();
        Edited {
            alloc,
            tree,
            changes: Overlay::new(alloc),
            before: 0,
            after: 0,
        }
    }

    /// The tree after an edit, whose nodes that come are pending (JSR 283, 10.11 Saving). It costs what
    /// the edit writes.
    pub fn of(alloc: Global, tree: &'a Tree, edit: &Edit) -> Result<Edited<'a>, AllocError>
        ensures { IfOk result (λ edited. edited ≡ applied None tree.now edit.now.writes) }
    {
        let _ = tree.len();
        let writes = edit.writes.as_slice();
        let old = written_nodes(alloc, tree, writes)?;
        let new = tree_after(&old, edit)?;
        let changes = changes_between(alloc, &old, &new, writes)?;
        let _ = changes.len();
        Ok(Edited {
            alloc,
            tree,
            changes: Overlay::of(alloc, changes),
            before: old.len(),
            after: new.len(),
        })
    }

    /// The node at a path (JSR 283, 5.1 Direct Access).
    pub fn get(&self, path: &Path) -> Option<&Node>
        ensures { option_copied result ≡ node_at self.now path.now }
    {
        match self.changes.at(path) {
            Some(change) => change.new.as_ref(),
            None => self.tree.get(path),
        }
    }

    /// Whether there is a node at the path.
    pub fn has(&self, path: &Path) -> bool
        ensures { result ≡ is_some (node_at self.now path.now) }
    {
        self.get(path).is_some()
    }

    /// The property of that name of the node at a path.
    pub fn property(&self, path: &Path, name: &Name) -> Option<&Property>
        ensures { option_copied result ≡ property_at self.now path.now name.now }
    {
        match self.get(path) {
            Some(node) => node.props.get(name),
            None => None,
        }
    }

    /// The nodes at or below a path, lent, with their paths from the root, in path order. It looks only at these.
    pub fn under(&self, path: &Path) -> Result<Vec<(&Path, &Node)>, AllocError>
        ensures { IfOk result (λ found. map deref_pair found.items ≡ subtree_of self.now path.now) }
    {
        let known = self.tree.under(path)?;
        self.changes.below(&known, path)
    }

    /// The last names of the children of a path, in ascending order, whether or not there is a node at
    /// the path itself (JSR 283, 5.2 Traversal Access). It looks at all nodes below the path.
    pub fn children(&self, path: &Path) -> Result<Vec<Name>, AllocError>
        ensures { IfOk result (λ names. names.items ≡ children_of self.now path.now) }
    {
        let mut names = Vec::new(self.alloc);
        for (at, _) in &self.under(path)? {
            if let Some(name) = child_name(path, at) {
                names.push(name.copy()?)?;
            }
        }
        Ok(names)
    }

    /// Whether it has more than so many nodes.
    pub fn has_more_than(&self, most: usize) -> bool
        ensures { result ≡ nat_lt most (length self.now) }
    {
        let kept = self.tree.len() - self.before;
        if kept > most {
            return true;
        }
        self.after > most - kept
    }

    /// A whole tree with these nodes, all copied: for what goes over all of them.
    pub fn tree(&self) -> Result<Tree, AllocError>
        ensures { IfOk result (λ tree. tree ≡ self.now) }
    {
        self.changes.view(self.tree)
    }

    /// The paths rise. It does nothing: callers learn the fact.
    pub fn in_order(&self)
        ensures { IsTrue (is_sorted path_cmp self.now) }
    {
        let _ = self.tree.len();
    }
}

// The last name of the second path, where this is that of a child of the first.
fn child_name<'a>(path: &Path, at: &'a Path) -> Option<&'a Name>
    ensures { option_copied result ≡ cond (is_child_of path.now at.now) (last_name at.now) None }
{
    if is_child(path, at) {
        at.last_name()
    } else {
        None
    }
}
