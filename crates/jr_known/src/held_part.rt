// The part of the tree at its base that a session has read.
ghost use Rattle.std.specs.Prelude.{◌≡◌, IfOk, IfSome, IsTrue, None, OnErr, OnOk, is_some};
ghost use Rattle.std.specs.FinMap.{is_sorted};
ghost use Rattle.jr_path.specs.Names.{name_cmp, path_cmp};
ghost use Rattle.jr_tree.specs.Trees.{IsTree, Nodes, node_at};
ghost use Rattle.jr_part.specs.Parts.{AgreesWith, Lacks, LacksNothing, nothing_known, with_children, with_node};
ghost use Rattle.jr_part.specs.declared.need.Need.TheVariants as need;
ghost use Rattle.jr_known.specs.Follows.{FollowsEdit, FollowsOrLacks, is_known_still};

use crate::EarlierTree;
use jr_part::{Need, Part, puts_agree};
use jr_path::{List, Name, Path};
use jr_rev::Revision;
use jr_tree::{Edit, Node, Tree};
use std::alloc::{AllocError, Global};
use std::marker::Model;

/// A part of the tree, with a note where nothing of the whole tree lacks, so that a command that
/// asks for all of it goes over nothing. The note may be missing though nothing lacks.
pub struct HeldPart {
    part: Part,
    is_whole: bool,
}

// By hand, so that its parts are let go in one call.
impl Drop for HeldPart {
    fn drop(self) {
        let HeldPart { part, is_whole: _ } = self;
        drop(part);
    }
}

impl Model for HeldPart {
    ghost use Rattle.jr_part.specs.Parts.{Knowledge};
    ghost use Rattle.jr_known.specs.Whole.{IsWholeIf};

    ghost Value = { Knowledge };

    ghost view = { λ l. l.part };

    ghost invariant = { λ l. IsWholeIf l.part l.is_whole };
}

impl HeldPart {
    /// Nothing is known. No memory is taken.
    pub fn new(alloc: Global) -> HeldPart
        ensures { result ≡ nothing_known }
    {
        HeldPart {
            part: Part::new(alloc),
            is_whole: false,
        }
    }

    /// What is known of the tree, without a note that it is the whole. No memory is taken.
    pub fn of(part: Part) -> HeldPart
        ensures { result ≡ part }
    {
        HeldPart {
            part,
            is_whole: false,
        }
    }

    /// The whole tree, where it is noted that nothing of it lacks, with the paths that were told to
    /// have changed since. No memory is taken.
    pub fn into_earlier(self, told: List<Path>) -> Option<EarlierTree>
        ensures { IfSome result (λ e. e ≡ record { part = self; told = told }) }
    {
        let HeldPart { part, is_whole } = self;
        if is_whole {
            Some(EarlierTree::of(part, told))
        } else {
            None
        }
    }

    /// The part of the tree, lent.
    pub fn as_part(&self) -> &Part
        ensures { result.now ≡ self.now }
    {
        &self.part
    }

    /// The tree, where nothing of it lacks.
    pub fn whole(&self) -> &Tree
        requires { LacksNothing self.now need.All }
        ensures nodes { result.now ≡ self.now.nodes }
        ensures whole { (t : Nodes) → IsTree t → AgreesWith t self.now → result.now ≡ t }
    {
        self.part.whole()
    }

    /// The nodes of a part stand in path order. The call does nothing: callers learn the fact.
    pub fn in_order(&self)
        ensures nodes { IsTrue (is_sorted path_cmp self.now.nodes) }
    {
        self.part.in_order();
    }

    /// Puts the node at a path, or that none is there. A refusal leaves all as it was. Where no
    /// node was known to be there and none is, the note stays.
    pub fn put_node(&mut self, path: &Path, node: Option<Node>) -> Result<(), AllocError>
        ensures ok { OnOk result (self.new ≡ with_node self.old path.now node) }
        ensures err { OnErr result (self.new ≡ self.old) }
    {
        match node {
            Some(node) => self.put_unnoted(path, Some(node)),
            None => self.put_absent(path),
        }
    }

    // Puts what is at a path, and takes the note away.
    fn put_unnoted(&mut self, path: &Path, node: Option<Node>) -> Result<(), AllocError>
        ensures ok { OnOk result (self.new ≡ with_node self.old path.now node) }
        ensures err { OnErr result (self.new ≡ self.old) }
    {
        self.is_whole = false;
        self.part.put_node(path, node)
    }

    // Puts that no node is at a path.
    fn put_absent(&mut self, path: &Path) -> Result<(), AllocError>
        ensures ok { OnOk result (self.new ≡ with_node self.old path.now None) }
        ensures err { OnErr result (self.new ≡ self.old) }
    {
        if self.has(path) {
            return self.put_unnoted(path, None);
        }
        self.part.put_node(path, None)
    }

    /// Whether a node is known to be at a path.
    pub fn has(&self, path: &Path) -> bool
        ensures { result ≡ is_some (node_at self.now.nodes path.now) }
    {
        match self.part.node(path) {
            Some(Some(_)) => true,
            Some(None) | None => false,
        }
    }

    /// Puts the names of the children of the node at a path. A refusal leaves all as it was.
    pub fn put_children(
        &mut self,
        path: &Path,
        names: List<(Name, Option<Revision>)>,
    ) -> Result<(), AllocError>
        requires rising { IsTrue (is_sorted name_cmp names) }
        ensures ok { OnOk result (self.new ≡ with_children self.old path.now names) }
        ensures err { OnErr result (self.new ≡ self.old) }
    {
        self.is_whole = false;
        self.part.put_children(path, names)
    }

    /// What lacks first of a need. The whole tree is gone over only where the note is missing.
    pub fn lacks(&self, need: &Need) -> Result<Option<Need>, AllocError>
        ensures { IfOk result (Lacks self.now need.now) }
    {
        match need {
            Need::All if self.is_whole => Ok(None),
            _ => self.part.lacks(need),
        }
    }

    /// Nothing of the whole tree lacks, which is noted. What is known stays the same.
    pub fn note_whole(&mut self)
        requires { LacksNothing self.old need.All }
        ensures { self.new ≡ self.old }
    {
        self.is_whole = true;
    }

    /// Follows an edit by a revision, where the whole tree is known. Answers whether the whole tree
    /// is known still; else nothing is.
    pub fn follow(&mut self, alloc: Global, edit: &Edit, by: Revision) -> bool
        ensures follows { FollowsEdit self.old self.new by edit.now.writes result }
        ensures order { IsTrue (is_sorted path_cmp self.new.nodes) }
    {
        let is_whole = self.follow_if_memory(alloc, edit, by);
        self.in_order();
        is_whole
    }

    fn follow_if_memory(&mut self, alloc: Global, edit: &Edit, by: Revision) -> bool
        ensures { FollowsEdit self.old self.new by edit.now.writes result }
    {
        is_known_still(self.follow_or_forget(alloc, edit, by))
    }

    // Follows an edit by a revision, where the whole tree is known. Answers whether it was; where
    // it wasn't, or memory is refused, nothing is known.
    fn follow_or_forget(
        &mut self,
        alloc: Global,
        edit: &Edit,
        by: Revision,
    ) -> Result<bool, AllocError>
        ensures { FollowsOrLacks self.old self.new by edit.now.writes result }
    {
        match self.lacks(&Need::All) {
            Ok(None) => self.follow_whole(edit, by),
            Ok(Some(_)) => {
                self.forget(alloc);
                Ok(false)
            }
            Err(refused) => {
                self.forget(alloc);
                Err(refused)
            }
        }
    }

    // Nothing is known any more.
    fn forget(&mut self, alloc: Global)
        ensures nothing { self.new ≡ nothing_known }
        ensures agrees { (t : Nodes) → AgreesWith t self.new }
    {
        puts_agree();
        *self = HeldPart::new(alloc);
    }

    // Follows an edit by a revision, where nothing of the tree lacks.
    fn follow_whole(&mut self, edit: &Edit, by: Revision) -> Result<bool, AllocError>
        requires { LacksNothing self.old need.All }
        ensures { FollowsOrLacks self.old self.new by edit.now.writes result }
    {
        puts_agree();
        match self.part.apply(edit, Some(by)) {
            Ok(()) => {
                self.is_whole = true;
                Ok(true)
            }
            Err(refused) => {
                self.is_whole = false;
                Err(refused)
            }
        }
    }
}

// Whether the whole tree is known still.
fn is_known_still(followed: Result<bool, AllocError>) -> bool
    ensures { result ≡ is_known_still followed }
{
    match followed {
        Ok(is_whole) => is_whole,
        Err(_) => false,
    }
}
