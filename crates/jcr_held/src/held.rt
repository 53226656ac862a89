// What a session holds between its commands.
ghost use Rattle.std.specs.Prelude.{◌≡◌, IfOk, IfSome, IsFalse, IsTrue, None, OnErr, OnOk, Some, false, option_map, true};
ghost use Rattle.std.specs.Option.{unwrap_or};
ghost use Rattle.std.specs.FinMap.{is_sorted};
ghost use Rattle.jr_path.specs.Names.{name_cmp};
ghost use Rattle.jr_tree.specs.Edits.{IsProper, applied};
ghost use Rattle.jr_tree.specs.Trees.{IsTree, Nodes, dated_children_of, node_at};
ghost use Rattle.jr_known.specs.Earlier.{SameButAt};
ghost use Rattle.jr_part.specs.Parts.{LacksNothing, nothing_known, with_children, with_node};
ghost use Rattle.jr_part.specs.declared.need.Need.TheVariants as need;
ghost use Rattle.jcr_ref.specs.References.{ReferencesOk};
ghost use Rattle.jcr_view.specs.Outcomes.{is_viewed};
ghost use Rattle.jcr_call.specs.Checkpoints.{IsNextOf};
ghost use Rattle.jcr_law.specs.State.{Call};
ghost use Rattle.jcr_law.specs.Calls.{call_after, call_moved};
ghost use Rattle.jcr_law.specs.declared.state.Cursor.{Cursor as Standing};
ghost use Rattle.jcr_held.specs.Alike.{AreAlike, moved_to, with_drawn};
ghost use Rattle.jcr_held.specs.Accepts.{AcceptsAs, cursor_behind, drops_pending, without_pending};
ghost use Rattle.jcr_held.specs.Begins.{IsFirstCall, IsNewHeld};
ghost use Rattle.jcr_held.specs.Holds.{Holds};
ghost use Rattle.jcr_held.specs.declared.references.References.TheVariants as references;

use crate::looking::Place;
use crate::references::References;
use jcr_call::{NextCheckpoint, next_checkpoint, used};
use jcr_law::Cursor;
use jcr_ref::MAX_IDS;
use jcr_trans::Command;
use jcr_view::Pending;
use jr_known::{EarlierTree, HeldPart};
use jr_path::{List, Name, Path, Text};
use jr_rev::{RevVec, Revision};
use jr_tree::{Edit, Node, Who};
use jr_types::Registry;
use std::alloc::{AllocError, Global};
use std::mem::replace;

/// What a session holds between its commands: the node types, who it is, what it has read of the
/// tree at its base, what is pending over that, its lock tokens, and its cursor over the changes
/// (JSR 283, 10.11 Saving; 12 Observation; 17.5 Lock Token).
pub struct Held {
    pub(crate) alloc: Global,
    pub(crate) types: Registry,
    pub(crate) who: Who,
    pub(crate) part: HeldPart,
    // The whole tree at an earlier base, while what changed since is read.
    pub(crate) earlier: Option<EarlierTree>,
    pub(crate) pending: Pending,
    // What is pending is over an earlier base, and is to be made again over this one.
    pub(crate) is_kept: bool,
    // What is known of the REFERENCEs of the tree at the base.
    pub(crate) references: References,
    pub(crate) tokens: List<Text>,
    // The session's cursor over the changes, where it observes.
    pub(crate) cursor: Option<Cursor>,
    // What is still to be looked at by loading, the next last.
    pub(crate) left: Vec<Place>,
}

// By hand, so that its parts are let go in one call.
impl Drop for Held {
    fn drop(self) {
        let Held {
            alloc: _,
            types,
            who: _,
            part,
            earlier,
            pending,
            is_kept: _,
            references: _,
            tokens,
            cursor,
            left,
        } = self;
        drop(types);
        drop(part);
        drop(earlier);
        drop(pending);
        drop(tokens);
        drop(cursor);
        drop(left);
    }
}

impl Held {
    /// What a session holds when it begins, with its number, how many sessions there were before
    /// this run, and its base. No memory is taken.
    pub fn new(alloc: Global, session: u32, earlier: u32, base: RevVec, types: Registry) -> Held
        ensures new { IsNewHeld result }
        ensures types { result.types ≡ types }
        ensures who { result.who ≡ record {
          session = session;
          earlier = earlier;
          ids = 0;
          base = base;
        } }
    {
        Held {
            alloc,
            types,
            who: Who {
                session,
                earlier,
                ids: 0,
                base,
            },
            part: HeldPart::new(alloc),
            earlier: None,
            pending: Pending::new(alloc),
            is_kept: false,
            references: References::Unasked,
            tokens: List::new(alloc),
            cursor: None,
            left: Vec::new(alloc),
        }
    }

    /// The vector of the session's base.
    pub fn base(&self) -> RevVec
        ensures { result ≡ self.now.who.base }
    {
        self.who.base
    }

    /// Moves the base to a vector, of whose tree and references nothing is known yet. What is
    /// pending is kept, and made again over that tree before the next command that asks for
    /// something (JSR 283, 10.11.4 Refresh). No memory is taken.
    pub fn move_to(&mut self, base: RevVec)
        ensures begins { (c : Call) → IsNewHeld self.old → IsFirstCall self.old base c
            → Holds c self.new }
        ensures moved { (c : Call) (t : Nodes) → Holds c self.old → IsFalse self.old.is_kept
            → IsTree t → Holds (call_moved c base t) self.new }
        ensures same { AreAlike (moved_to self.old base) self.new }
    {
        self.who.base = base;
        self.part = HeldPart::new(self.alloc);
        self.earlier = None;
        self.is_kept = true;
        self.references = References::Unasked;
        self.left.clear();
    }

    /// Moves the base as `move_to` does, to a vector at which the tree is the one at the old base
    /// but at these paths, if any are told. The whole tree, where it is known, is kept until the
    /// nodes at these paths are read, so that nothing else is loaded again (JSR 283, 10.11.4
    /// Refresh). No memory is taken.
    pub fn move_along(&mut self, base: RevVec, told: Option<List<Path>>)
        ensures moved { (c : Call) (t : Nodes) → Holds c self.old → IsFalse self.old.is_kept
            → IsTree t → IfSome told (λ paths. SameButAt paths c.base t)
            → Holds (call_moved c base t) self.new }
        ensures same { AreAlike (record (moved_to self.old base) {
          earlier = self.new.earlier;
        }) self.new }
    {
        let earlier = self.take_earlier(told);
        self.move_to(base);
        self.earlier = earlier;
    }

    // Takes the whole tree with the paths that are told, where both are known and none is held from
    // a base before; else nothing is taken that is of use.
    fn take_earlier(&mut self, told: Option<List<Path>>) -> Option<EarlierTree>
        ensures part { IfSome result (λ e. e.part ≡ self.old.part) }
        ensures told { IfSome result (λ e. told ≡ Some e.told) }
        ensures same { self.new ≡ record self.old { part = self.new.part } }
    {
        match (&self.earlier, told) {
            (None, Some(told)) => {
                replace(&mut self.part, HeldPart::new(self.alloc)).into_earlier(told)
            }
            (Some(_), _) | (None, None) => None,
        }
    }

    /// Moves the base to a vector at which the tree is the one at the old base with an edit, as an
    /// own commit by that revision leaves it, of which its plan told that each REFERENCE names a
    /// node. What is known of the tree follows the edit, so that nothing is loaded again, and what
    /// is pending is kept as by `move_to` (JSR 283, 10.11 Saving; 3.8 Referential Integrity).
    /// Answers whether the whole tree is known still; where it wasn't, or memory is refused, no
    /// node of it is known.
    pub fn follow(&mut self, base: RevVec, by: Revision, edit: &Edit) -> bool
        ensures whole { IsTrue result → LacksNothing self.new.part need.All }
        ensures nothing { IsFalse result → self.new.part ≡ nothing_known }
        ensures holds { (c : Call) → Holds c self.old → IsFalse self.old.is_kept
            → IsProper c.base edit.now.writes
            → ReferencesOk (applied None c.base edit.now.writes)
            → Holds (call_moved c base (applied (Some by) c.base edit.now.writes)) self.new }
        ensures same { AreAlike (record (moved_to self.old base) {
          part = self.new.part;
          references = references.Named;
        }) self.new }
    {
        self.who.base = base;
        self.earlier = None;
        self.is_kept = true;
        self.references = References::Named;
        self.left.clear();
        self.part.follow(self.alloc, edit, by)
    }

    /// Puts the node at a path of the tree at the base, or that none is there. A refusal leaves all
    /// as it was.
    pub fn put_node(&mut self, path: &Path, node: Option<Node>) -> Result<(), AllocError>
        ensures ok { OnOk result (self.new ≡ record self.old {
          part = with_node self.old.part path.now node;
        }) }
        ensures holds { OnOk result ((c : Call) → Holds c self.old
            → node ≡ node_at c.base path.now → Holds c self.new) }
        ensures err { OnErr result (self.new ≡ self.old) }
    {
        self.part.put_node(path, node)?;
        self.part.in_order();
        Ok(())
    }

    /// Puts the names of the children, which rise, of the node at a path of the tree at the base. A
    /// refusal leaves all as it was.
    pub fn put_children(
        &mut self,
        path: &Path,
        names: List<(Name, Option<Revision>)>,
    ) -> Result<(), AllocError>
        requires rising { IsTrue (is_sorted name_cmp names) }
        ensures ok { OnOk result (self.new ≡ record self.old {
          part = with_children self.old.part path.now names;
        }) }
        ensures holds { OnOk result ((c : Call) → Holds c self.old
            → names ≡ dated_children_of c.base path.now → Holds c self.new) }
        ensures err { OnErr result (self.new ≡ self.old) }
    {
        self.part.put_children(path, names)?;
        self.part.in_order();
        Ok(())
    }

    /// A command that the view doesn't answer was accepted: `save`, and `refresh` with false, drop
    /// what is pending; `events` moves the cursor to the base. The tokens are those given, or else
    /// they stay. No memory is taken.
    pub fn accept(&mut self, command: &Command, drew: bool, tokens: Option<List<Text>>)
        requires { IsFalse (is_viewed command.now) }
        ensures { (c : Call) → Holds c self.old → AcceptsAs self.old tokens c command.now
            → Holds (call_after true drew c command.now) self.new }
    {
        self.drop_pending(command);
        self.take_tokens(tokens);
        self.move_cursor(command);
        self.count(used(command, true, drew));
    }

    // Drops what is pending, where an accepted reply to the command does.
    fn drop_pending(&mut self, command: &Command)
        ensures { self.new ≡ without_pending self.old (drops_pending command.now) }
    {
        if drops_pending(command) {
            self.pending = Pending::new(self.alloc);
            self.is_kept = false;
        }
    }

    // The session holds these tokens, if they are given.
    fn take_tokens(&mut self, tokens: Option<List<Text>>)
        ensures { self.new ≡ record self.old { tokens = unwrap_or tokens self.old.tokens } }
    {
        if let Some(tokens) = tokens {
            self.tokens = tokens;
        }
    }

    // The cursor moves to the base, where an accepted reply to the command moves it.
    fn move_cursor(&mut self, command: &Command)
        ensures { self.new ≡ record self.old { cursor = cursor_behind self.old command.now } }
    {
        if let Command::Events = command {
            self.move_to_base();
        }
    }

    // The cursor, where there is one, moves to the base.
    fn move_to_base(&mut self)
        ensures { self.new ≡ record self.old {
          cursor = option_map (λ (x : Standing). record x { at = self.old.who.base })
              self.old.cursor;
        } }
    {
        let at = self.who.base;
        if let Some(cursor) = &mut self.cursor {
            cursor.at = at;
        }
    }

    /// A command was refused, or memory was refused for it. No memory is taken.
    pub fn refuse(&mut self, command: &Command, drew: bool)
        ensures { (c : Call) → Holds c self.old
            → Holds (call_after false drew c command.now) self.new }
    {
        self.count(used(command, false, drew));
    }

    /// What a `checkpoint` of the session begins with.
    pub fn next_checkpoint(&self) -> Result<NextCheckpoint, AllocError>
        ensures { IfOk result (IsNextOf self.now.who) }
    {
        next_checkpoint(self.alloc, &self.who)
    }

    // A command is done, which drew so many identifiers beside those of the view.
    pub(crate) fn count(&mut self, drawn: u32)
        ensures { AreAlike (with_drawn self.old drawn) self.new }
    {
        self.who.ids = self.who.ids.saturating_add(drawn).min(MAX_IDS);
        self.left.clear();
    }
}

// Whether an accepted reply to the command drops what is pending.
fn drops_pending(command: &Command) -> bool
    ensures { result ≡ drops_pending command.now }
{
    matches!(command, Command::Save | Command::Refresh(false))
}
