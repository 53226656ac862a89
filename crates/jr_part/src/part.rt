// A part of a tree, which grows by what is read.
ghost use Rattle.std.specs.Prelude.{◌≡◌, ◌∷◌, ◌++◌, [], IfOk, IsTrue, OnErr, OnOk, None, Some, is_some, map};
ghost use Rattle.std.specs.Option.{option_copied, option_map};
ghost use Rattle.std.specs.FinMap.{is_sorted};
ghost use Rattle.std.specs.Map.{remove_entry};
ghost use Rattle.std.specs.Map.Iter.{deref_pair};
ghost use Rattle.std.specs.BTreeMap.{is_at};
ghost use Rattle.jr_path.specs.Names.{name_cmp, path_cmp};
ghost use Rattle.jr_tree.specs.declared.edit.Write.TheVariants.{Gone};
ghost use Rattle.jr_tree.specs.Edits.{IsProper, applied};
ghost use Rattle.jr_tree.specs.Trees.{IsTree, Nodes, node_at, subtree_of};
ghost use Rattle.jr_part.specs.declared.need.Need.TheVariants as need;
ghost use Rattle.jr_part.specs.Follows.{followed};
ghost use Rattle.jr_part.specs.Parts.{AgreesWith, HaveRisingNames, Lacks, LacksNothing, known_at, list_at, nothing_known, with_children, with_node};

use crate::Need;
use crate::follow::{Lists, follow_lists, note_root};
use jr_path::{DeepCopy, Keyed, List, Name, Path};
use jr_rev::Revision;
use jr_tree::{Edit, Node, Tree, Write};
use std::alloc::{AllocError, Global};
use std::marker::Model;

/// A part of a tree, as it was read so far: the nodes that are there, the paths without a node, and
/// the names of children, each with the revision that added the child.
pub struct Part {
    alloc: Global,
    tree: Tree,
    absent: Keyed<Path, ()>,
    lists: Lists,
}

// By hand, so that its parts are let go in one call.
impl Drop for Part {
    fn drop(self) {
        let Part {
            alloc: _,
            tree,
            absent,
            lists,
        } = self;
        drop(tree);
        drop(absent);
        drop(lists);
    }
}

impl Model for Part {
    ghost use Rattle.jr_part.specs.Parts.{HaveRisingNames, Knowledge};

    ghost Value = { Knowledge };

    ghost view = { λ p. record { nodes = p.tree; absent = p.absent; lists = p.lists } };

    ghost invariant = { λ p. HaveRisingNames p.lists };
}

impl Part {
    /// A part of which nothing is known. It takes no memory.
    pub fn new(alloc: Global) -> Part
        ensures { result ≡ nothing_known }
    {
        Part {
            alloc,
            tree: Tree::new(alloc),
            absent: Keyed::new(alloc),
            lists: Keyed::new(alloc),
        }
    }

    /// What is known of the node at a path: the node that is there, or that none is there.
    pub fn node(&self, path: &Path) -> Option<Option<&Node>>
        ensures { option_map option_copied result ≡ known_at self.now path.now }
    {
        match self.tree.get(path) {
            Some(node) => Some(Some(node)),
            None if self.absent.contains(path) => Some(None),
            None => None,
        }
    }

    /// The nodes at or below a path that are known to be there, lent, with their paths from the root, in
    /// path order. It looks only at these.
    pub fn under<'a>(&'a self, path: &Path) -> Result<Vec<(&'a Path, &'a Node)>, AllocError>
        ensures { IfOk result (λ found. map deref_pair found.items ≡ subtree_of self.now.nodes path.now) }
    {
        self.tree.under(path)
    }

    /// The names of the children of the node at a path, in ascending order, where they are known, each
    /// with the revision that added the child.
    pub fn children(&self, path: &Path) -> Option<&[(Name, Option<Revision>)]>
        ensures { option_copied result ≡ list_at self.now path.now }
    {
        match self.lists.get(path) {
            Some(names) => Some(names.as_slice()),
            None => None,
        }
    }

    /// Puts the node at a path, or that none is there, in the place of what was known of it. A refusal
    /// leaves the part as it was.
    pub fn put_node(&mut self, path: &Path, node: Option<Node>) -> Result<(), AllocError>
        ensures ok { OnOk result (self.new ≡ with_node self.old path.now node) }
        ensures err { OnErr result (self.new ≡ self.old) }
    {
        match node {
            Some(node) => self.put_there(path, node),
            None => self.put_absent(path),
        }
    }

    fn put_there(&mut self, path: &Path, node: Node) -> Result<(), AllocError>
        ensures ok { OnOk result (self.new ≡ with_node self.old path.now (Some node)) }
        ensures err { OnErr result (self.new ≡ self.old) }
    {
        self.tree.insert(path.copy()?, node)?;
        self.absent.remove(path);
        Ok(())
    }

    fn put_absent(&mut self, path: &Path) -> Result<(), AllocError>
        ensures ok { OnOk result (self.new ≡ with_node self.old path.now None) }
        ensures err { OnErr result (self.new ≡ self.old) }
    {
        if self.tree.has(path) {
            return self.put_gone(path);
        }
        self.absent.put(path.copy()?, ())
    }

    // A node that was there is gone. No tree answers both, so only a wrong caller pays for the copy.
    fn put_gone(&mut self, path: &Path) -> Result<(), AllocError>
        ensures ok { OnOk result (self.new ≡ with_node self.old path.now None) }
        ensures err { OnErr result (self.new ≡ self.old) }
    {
        let tree = self.tree_without(path)?;
        self.absent.put(path.copy()?, ())?;
        self.tree = tree;
        Ok(())
    }

    fn tree_without(&self, path: &Path) -> Result<Tree, AllocError>
        ensures { IfOk result (λ t. t ≡ remove_entry (is_at (path_cmp path.now)) self.now.nodes) }
    {
        let edit = going(self.alloc, path)?;
        let tree = tree_after(&self.tree, &edit)?;
        Ok(tree)
    }

    /// Puts the names of the children of the node at a path, which rise, in the place of what was known
    /// of them. A refusal leaves the part as it was.
    pub fn put_children(
        &mut self,
        path: &Path,
        names: List<(Name, Option<Revision>)>,
    ) -> Result<(), AllocError>
        requires rising { IsTrue (is_sorted name_cmp names) }
        ensures ok { OnOk result (self.new ≡ with_children self.old path.now names) }
        ensures err { OnErr result (self.new ≡ self.old) }
    {
        self.lists.put(path.copy()?, names)
    }

    /// Follows an edit of the tree, whose nodes that come are added by that revision: of a tree that the
    /// part agreed with, it agrees with the tree after the edit, and still nothing lacks (JSR 283, 10.11
    /// Saving). Of the lists of children only those of nodes that come, and of the nodes above those that
    /// come or go, are looked at. Where memory is refused all is forgotten.
    pub fn apply(&mut self, edit: &Edit, by: Option<Revision>) -> Result<(), AllocError>
        requires whole { LacksNothing self.old need.All }
        ensures nodes { OnOk result (self.new.nodes ≡ applied by self.old.nodes edit.now.writes) }
        ensures agrees { (t : Nodes) → IsTree t → IsProper t edit.now.writes → AgreesWith t self.old
            → OnOk result (AgreesWith (applied by t edit.now.writes) self.new) }
        ensures whole { OnOk result (LacksNothing self.new need.All) }
        ensures err { OnErr result (self.new ≡ nothing_known) }
    {
        self.in_order();
        match follow(
            &mut self.tree,
            &mut self.absent,
            &mut self.lists,
            self.alloc,
            edit,
            by,
        ) {
            Ok(()) => Ok(()),
            Err(refused) => {
                self.tree = Tree::new(self.alloc);
                self.absent = Keyed::new(self.alloc);
                self.lists = Keyed::new(self.alloc);
                Err(refused)
            }
        }
    }

    /// The first answer, a Node or a Children, in path order and a Node before the Children of its path,
    /// that the need asks for and that isn't known yet; None where nothing lacks. A Subtree asks for its
    /// node and, where that is there, for its children and the subtree of each; All is the Subtree of
    /// the root.
    ///
    /// A Node and a Children are looked up; a Subtree and All go over all that is known at and below
    /// their path, up to the answer. So who loads a subtree of many nodes asks for the Node and then the
    /// Children of one path after another, from its path down as the names come, and for the Subtree at
    /// the end.
    pub fn lacks(&self, need: &Need) -> Result<Option<Need>, AllocError>
        ensures { IfOk result (Lacks self.now need.now) }
    {
        match need {
            Need::Node(path) => self.lacks_node(path),
            Need::Children(path) => self.lacks_children(path),
            Need::Subtree(path) => self.lacks_below(path),
            Need::All => self.lacks_below(&Path::root(self.alloc)),
        }
    }

    fn lacks_node(&self, path: &Path) -> Result<Option<Need>, AllocError>
        ensures { IfOk result (Lacks self.now (need.Node path.now)) }
    {
        match self.node(path) {
            Some(_) => Ok(None),
            None => Ok(Some(Need::Node(path.copy()?))),
        }
    }

    fn lacks_children(&self, path: &Path) -> Result<Option<Need>, AllocError>
        ensures { IfOk result (Lacks self.now (need.Children path.now)) }
    {
        match self.children(path) {
            Some(_) => Ok(None),
            None => Ok(Some(Need::Children(path.copy()?))),
        }
    }

    // What lacks first at or below a path.
    #[cycle(lacks_below)]
    fn lacks_below(&self, path: &Path) -> Result<Option<Need>, AllocError>
        ensures { IfOk result (Lacks self.now (need.Subtree path.now)) }
    {
        match self.node(path) {
            None => Ok(Some(Need::Node(path.copy()?))),
            Some(None) => Ok(None),
            Some(Some(_)) => match self.children(path) {
                None => Ok(Some(Need::Children(path.copy()?))),
                Some(names) => self.lacks_among(path, names),
            },
        }
    }

    // What lacks first at or below the children of a node that is there.
    #[cycle(lacks_below)]
    fn lacks_among(
        &self,
        path: &Path,
        names: &[(Name, Option<Revision>)],
    ) -> Result<Option<Need>, AllocError>
        requires there { IsTrue (is_some (node_at self.now.nodes path.now)) }
        requires listed { list_at self.now path.now ≡ Some names.now }
        ensures { IfOk result (Lacks self.now (need.Subtree path.now)) }
    {
        self.in_order();
        for (name, _) in names {
            let child = path.child(name)?;
            let lacking = self.lacks_below(&child)?;
            if lacking.is_some() {
                return Ok(lacking);
            }
        }
        Ok(None)
    }

    /// The nodes that are there, as a tree: since nothing of All lacks, they are each tree that the part
    /// agrees with. It takes no memory.
    pub fn whole(&self) -> &Tree
        requires { LacksNothing self.now need.All }
        ensures nodes { result.now ≡ self.now.nodes }
        ensures whole { (t : Nodes) → IsTree t → AgreesWith t self.now → result.now ≡ t }
    {
        self.in_order();
        &self.tree
    }

    /// Its nodes stand in path order, and the names of the children of each node rise. It does
    /// nothing: callers learn the facts.
    pub fn in_order(&self)
        ensures nodes { IsTrue (is_sorted path_cmp self.now.nodes) }
        ensures lists { HaveRisingNames self.now.lists }
    {
        let _ = self.tree.len();
    }
}

// The edit by which the node at a path goes.
fn going(alloc: Global, path: &Path) -> Result<Edit, AllocError>
    ensures { IfOk result (λ edit. edit.writes ≡ Gone path.now ∷ []) }
{
    let mut writes = List::new(alloc);
    push_going(&mut writes, path)?;
    Ok(Edit { writes })
}

fn push_going(writes: &mut List<Write>, path: &Path) -> Result<(), AllocError>
    ensures { OnOk result (writes.new ≡ writes.old ++ Gone path.now ∷ []) }
{
    writes.push(Write::Gone(path.copy()?))
}

// A copy of a tree, after an edit.
fn tree_after(tree: &Tree, edit: &Edit) -> Result<Tree, AllocError>
    ensures { IfOk result (λ after. after ≡ applied None tree.now edit.now.writes) }
{
    let mut after = tree.copy()?;
    after.apply(edit, None)?;
    Ok(after)
}

// The tree, the paths without a node and the lists of children follow an edit. A refusal leaves them
// half changed.
fn follow(
    tree: &mut Tree,
    absent: &mut Keyed<Path, ()>,
    lists: &mut Lists,
    alloc: Global,
    edit: &Edit,
    by: Option<Revision>,
) -> Result<(), AllocError>
    requires rising { HaveRisingNames lists.old }
    ensures { OnOk result ((record { nodes = tree.new; absent = absent.new; lists = lists.new })
        ≡ followed by (record { nodes = tree.old; absent = absent.old; lists = lists.old })
        edit.now.writes) }
{
    tree.apply(edit, by)?;
    note_root(absent, alloc, tree)?;
    follow_lists(lists, alloc, edit.writes.as_slice(), by)
}
