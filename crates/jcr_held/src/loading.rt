// What a session has to read of the tree at its base before a command.
ghost use Rattle.std.specs.Prelude.{◌≡◌, ◌≤◌, ◌∷◌, [], IfOk, IfSome, IsFalse, IsTrue, None, OnErr, OnOk, Some, cond};
ghost use Rattle.std.specs.List.{All, flat_map};
ghost use Rattle.jr_part.specs.Parts.{LacksNothing};
ghost use Rattle.jr_part.specs.declared.need.Need.TheVariants as need;
ghost use Rattle.jr_overlay.specs.Overlays.{edit_of};
ghost use Rattle.jcr_trans.specs.declared.command.Command.{Command};
ghost use Rattle.jcr_view.specs.Needs.{needs_of, needs_to_rebase};
ghost use Rattle.jcr_view.specs.Outcomes.{is_viewed};
ghost use Rattle.jcr_view.specs.Rounds.{is_of_one_node};
ghost use Rattle.jcr_law.specs.State.{Call};
ghost use Rattle.jcr_held.specs.Alike.{AreAlike, IsWholeBehind, MakesAgain, Readies};
ghost use Rattle.jcr_held.specs.Holds.{HasAskedOfReferences, HasCaughtUpFor, Holds, IsReady, asks_for};
ghost use Rattle.jcr_held.specs.Looking.{IsLackingOf, places_for};
ghost use Rattle.jcr_held.specs.References.{are_asked};
ghost use Rattle.jcr_held.specs.Unread.{IsWanted, unread};

use crate::Held;
use crate::looking::{leave_needs, load_left};
use crate::references::{References, ask};
use jcr_call::commits;
use jcr_trans::Command;
use jcr_view::{each_round_learns, is_viewed, rebases_count};
use jr_known::HeldPart;
use jr_part::Need;
use jr_path::{DeepCopy, Path};
use std::alloc::{AllocError, Global};

impl Held {
    /// What to read next of the tree at the base, a node or the children of one, before a command
    /// is run; None where all is known that it asks for, and nothing is kept from an earlier base.
    /// Commands that commit, and queries, ask for the whole tree (JSR 283, 6 Query; 10.11 Saving);
    /// `split` for its node; `head`, `refresh`, `attach`, `detach`, `observe` and `events` for
    /// nothing. Before one that commits, it is asked once at each base whether a REFERENCE dangles
    /// there, where that isn't known (3.8.2 Referential Integrity). While an earlier tree is held,
    /// the nodes at its told paths are read before anything else that is asked for.
    pub fn next_load(&mut self, command: &Command) -> Result<Option<Need>, AllocError>
        ensures ready { IfOk result (λ load. load ≡ None → IsReady self.new command.now) }
        ensures asked { IfOk result (λ load. load ≡ None
            → HasAskedOfReferences self.new command.now) }
        ensures one { IfOk result (λ load. IfSome load (λ n. IsTrue (is_of_one_node n))) }
        ensures holds { (c : Call) → Holds c self.old → Holds c self.new }
        ensures others { Readies self.old self.new }
        ensures whole { (c : Call) → Holds c self.old
            → IfOk result (λ load. IsWholeBehind self.old self.new) }
        ensures wanted { (c : Call) → Holds c self.old
            → IfOk result (λ load. IfSome load (IsWanted c self.new command.now)) }
        ensures fewer { (c : Call) → Holds c self.old
            → unread c self.new command.now ≤ unread c self.old command.now }
    {
        match self.load_on()? {
            Some(load) => Ok(Some(load)),
            None => self.load_anew(command),
        }
    }

    // What to read next of what is left to be looked at: nothing, while an earlier tree is held.
    fn load_on(&mut self) -> Result<Option<Need>, AllocError>
        ensures one { IfOk result (λ load. IfSome load (λ n. IsTrue (is_of_one_node n))) }
        ensures same { AreAlike self.old self.new }
        ensures wanted { (c : Call) (m : Command) → Holds c self.old
            → IfOk result (λ load. IfSome load (IsWanted c self.new m)) }
    {
        if self.earlier.is_some() {
            return Ok(None);
        }
        load_left(
            self.part.as_part(),
            &self.pending,
            self.is_kept,
            &mut self.left,
        )
    }

    // What to read next where nothing is left to be looked at.
    fn load_anew(&mut self, command: &Command) -> Result<Option<Need>, AllocError>
        ensures ready { IfOk result (λ load. load ≡ None → IsReady self.new command.now) }
        ensures asked { IfOk result (λ load. load ≡ None
            → HasAskedOfReferences self.new command.now) }
        ensures one { IfOk result (λ load. IfSome load (λ n. IsTrue (is_of_one_node n))) }
        ensures holds { (c : Call) → Holds c self.old → Holds c self.new }
        ensures others { Readies self.old self.new }
        ensures whole { (c : Call) → Holds c self.old
            → IfOk result (λ load. IsWholeBehind self.old self.new) }
        ensures wanted { (c : Call) → Holds c self.old
            → IfOk result (λ load. IfSome load (IsWanted c self.new command.now)) }
        ensures fewer { (c : Call) (m : Command) → unread c self.new m ≤ unread c self.old m }
    {
        match self.load_kept()? {
            Some(load) => Ok(Some(load)),
            None => self.load_for(command),
        }
    }

    // What to read next before what is kept is made again; None where that is done.
    fn load_kept(&mut self) -> Result<Option<Need>, AllocError>
        ensures settled { IfOk result (λ load. load ≡ None → IsFalse self.new.is_kept) }
        ensures one { IfOk result (λ load. IfSome load (λ n. IsTrue (is_of_one_node n))) }
        ensures holds { (c : Call) → Holds c self.old → Holds c self.new }
        ensures others { Readies self.old self.new }
        ensures whole { (c : Call) → Holds c self.old
            → IfOk result (λ load. IsWholeBehind self.old self.new) }
        ensures wanted { (c : Call) (m : Command) → Holds c self.old
            → IfOk result (λ load. IfSome load (IsWanted c self.new m)) }
        ensures fewer { (c : Call) (m : Command) → unread c self.new m ≤ unread c self.old m }
    {
        if !self.is_kept {
            return Ok(None);
        }
        let needs = self.pending.needs_to_rebase()?;
        match self.catch_up_for(needs.as_slice())? {
            Some(load) => Ok(Some(load)),
            None => self.load_again(needs),
        }
    }

    // What to read next of the needs of what is kept; None where that is made again.
    fn load_again(&mut self, needs: Vec<Need>) -> Result<Option<Need>, AllocError>
        requires kept { IsTrue self.old.is_kept }
        requires needs { needs.items ≡ needs_to_rebase (edit_of self.old.pending) }
        requires caught { HasCaughtUpFor self.old needs.items }
        ensures settled { IfOk result (λ load. load ≡ None → IsFalse self.new.is_kept) }
        ensures one { IfOk result (λ load. IfSome load (λ n. IsTrue (is_of_one_node n))) }
        ensures holds { (c : Call) → Holds c self.old → Holds c self.new }
        ensures others { MakesAgain self.old self.new }
        ensures wanted { (c : Call) (m : Command) → Holds c self.old
            → IfOk result (λ load. IfSome load (IsWanted c self.new m)) }
        ensures fewer { (c : Call) (m : Command) → unread c self.new m ≤ unread c self.old m }
    {
        match self.load_of(needs)? {
            Some(load) => Ok(Some(load)),
            None => self.make_again(),
        }
    }

    // Makes what is kept again over the tree at the base. Nothing is to be read for it.
    fn make_again(&mut self) -> Result<Option<Need>, AllocError>
        requires kept { IsTrue self.old.is_kept }
        requires known { All (LacksNothing self.old.part)
            (needs_to_rebase (edit_of self.old.pending)) }
        ensures none { IfOk result (λ load. load ≡ None) }
        ensures settled { OnOk result (IsFalse self.new.is_kept) }
        ensures holds { (c : Call) → Holds c self.old → Holds c self.new }
        ensures others { MakesAgain self.old self.new }
        ensures fewer { (c : Call) (m : Command) → unread c self.new m ≤ unread c self.old m }
    {
        rebases_count();
        self.pending.rebase(self.part.as_part())?;
        self.is_kept = false;
        Ok(None)
    }

    // What to read next of what a command asks for, where nothing is kept from an earlier base.
    fn load_for(&mut self, command: &Command) -> Result<Option<Need>, AllocError>
        requires settled { IsFalse self.old.is_kept }
        ensures ready { IfOk result (λ load. load ≡ None → IsReady self.new command.now) }
        ensures asked { IfOk result (λ load. load ≡ None
            → HasAskedOfReferences self.new command.now) }
        ensures one { IfOk result (λ load. IfSome load (λ n. IsTrue (is_of_one_node n))) }
        ensures holds { (c : Call) → Holds c self.old → Holds c self.new }
        ensures others { Readies self.old self.new }
        ensures whole { (c : Call) → Holds c self.old
            → IfOk result (λ load. IsWholeBehind self.old self.new) }
        ensures wanted { (c : Call) → Holds c self.old
            → IfOk result (λ load. IfSome load (IsWanted c self.new command.now)) }
        ensures fewer { (c : Call) (m : Command) → unread c self.new m ≤ unread c self.old m }
    {
        match self.catch_up_before(command)? {
            Some(load) => Ok(Some(load)),
            None => self.load_asked(command),
        }
    }

    // What to read next of what a command asks for, where no earlier tree is to be caught up with.
    fn load_asked(&mut self, command: &Command) -> Result<Option<Need>, AllocError>
        requires settled { IsFalse self.old.is_kept }
        requires caught { HasCaughtUpFor self.old (asks_for self.old command.now) }
        ensures ready { IfOk result (λ load. load ≡ None → IsReady self.new command.now) }
        ensures asked { IfOk result (λ load. load ≡ None
            → HasAskedOfReferences self.new command.now) }
        ensures one { IfOk result (λ load. IfSome load (λ n. IsTrue (is_of_one_node n))) }
        ensures holds { (c : Call) → Holds c self.old → Holds c self.new }
        ensures others { MakesAgain self.old self.new }
        ensures wanted { (c : Call) → Holds c self.old
            → IfOk result (λ load. IfSome load (IsWanted c self.new command.now)) }
        ensures fewer { (c : Call) (m : Command) → unread c self.new m ≤ unread c self.old m }
    {
        let needs = self.asked(command)?;
        match self.load_of(needs)? {
            Some(load) => Ok(Some(load)),
            None => self.ask_before(command),
        }
    }

    // Nothing is to be read for a command. Before one that commits, it is asked whether a REFERENCE
    // of the tree at the base dangles.
    fn ask_before(&mut self, command: &Command) -> Result<Option<Need>, AllocError>
        requires ready { IsReady self.old command.now }
        ensures none { IfOk result (λ load. load ≡ None) }
        ensures ready { IsReady self.new command.now }
        ensures asked { OnOk result (HasAskedOfReferences self.new command.now) }
        ensures holds { (c : Call) → Holds c self.old → Holds c self.new }
        ensures others { MakesAgain self.old self.new }
        ensures fewer { (c : Call) (m : Command) → unread c self.new m ≤ unread c self.old m }
    {
        if commits(command) {
            self.ask_once()?;
        }
        Ok(None)
    }

    // Asks whether a REFERENCE of the tree at the base dangles, where that isn't known.
    fn ask_once(&mut self) -> Result<(), AllocError>
        requires settled { IsFalse self.old.is_kept }
        requires known { LacksNothing self.old.part need.All }
        ensures asked { OnOk result (IsTrue (are_asked self.new.references)) }
        ensures once { IsTrue (are_asked self.old.references) → self.new ≡ self.old }
        ensures same { self.new ≡ record self.old { references = self.new.references } }
        ensures holds { (c : Call) → Holds c self.old → Holds c self.new }
        ensures err { OnErr result (self.new ≡ self.old) }
    {
        match self.references {
            References::Unasked => self.ask_references(),
            References::Named | References::Dangling => Ok(()),
        }
    }

    // Asks whether a REFERENCE of the tree at the base dangles.
    fn ask_references(&mut self) -> Result<(), AllocError>
        requires settled { IsFalse self.old.is_kept }
        requires known { LacksNothing self.old.part need.All }
        ensures asked { OnOk result (IsTrue (are_asked self.new.references)) }
        ensures same { self.new ≡ record self.old { references = self.new.references } }
        ensures holds { (c : Call) → Holds c self.old → Holds c self.new }
        ensures err { OnErr result (self.new ≡ self.old) }
    {
        self.references = ask(self.alloc, self.part.whole())?;
        Ok(())
    }

    // What a command asks for.
    pub(crate) fn asked(&self, command: &Command) -> Result<Vec<Need>, AllocError>
        ensures { IfOk result (λ needs. needs.items ≡ asks_for self.now command.now) }
    {
        match command {
            Command::Head | Command::Refresh(_) => Ok(Vec::new(self.alloc)),
            Command::Attach(_) | Command::Detach => Ok(Vec::new(self.alloc)),
            Command::Observe(_, _, _) | Command::Events => Ok(Vec::new(self.alloc)),
            Command::Split(path) => node_at(self.alloc, path),
            _ => self.asked_of_tree(command),
        }
    }

    // What a command asks for that reads the view, or the tree at the base, or commits.
    fn asked_of_tree(&self, command: &Command) -> Result<Vec<Need>, AllocError>
        ensures { IfOk result (λ needs. needs.items ≡ cond (is_viewed command.now)
            (needs_of self.now.who self.now.part self.now.pending command.now) (need.All ∷ [])) }
    {
        if is_viewed(command) {
            self.pending.needs(command, self.part.as_part(), &self.who)
        } else {
            whole_tree(self.alloc)
        }
    }

    // What to read next of some needs; None where nothing of them lacks. Where something lacks,
    // they are left to be looked at.
    fn load_of(&mut self, needs: Vec<Need>) -> Result<Option<Need>, AllocError>
        ensures known { IfOk result (λ load. load ≡ None
            → All (LacksNothing self.new.part) needs.items) }
        ensures one { IfOk result (λ load. IfSome load (λ n. IsTrue (is_of_one_node n))) }
        ensures lacks { IfOk result (λ load. IfSome load
            (IsLackingOf self.new.part needs.items)) }
        ensures left { IfOk result (λ load. IfSome load
            (λ n. self.new.left.items ≡ flat_map places_for needs.items)) }
        ensures same { AreAlike self.old self.new }
    {
        match first_lacking(&self.part, needs.as_slice())? {
            Some(load) => self.leave(load, needs),
            None => {
                note_known(&mut self.part, needs.as_slice());
                Ok(None)
            }
        }
    }

    // A load, behind which these needs are left to be looked at.
    fn leave(&mut self, load: Need, needs: Vec<Need>) -> Result<Option<Need>, AllocError>
        ensures load { IfOk result (λ found. found ≡ Some load) }
        ensures left { OnOk result (self.new.left.items ≡ flat_map places_for needs.items) }
        ensures same { AreAlike self.old self.new }
    {
        leave_needs(self.alloc, &mut self.left, needs)?;
        Ok(Some(load))
    }
}

// Nothing lacks of these needs: where the first is the whole tree, that is noted.
fn note_known(part: &mut HeldPart, needs: &[Need])
    requires { All (LacksNothing part.old) needs.now }
    ensures { part.new ≡ part.old }
{
    match needs.first() {
        Some(need) => note(part, need),
        None => {}
    }
}

fn note(part: &mut HeldPart, need: &Need)
    requires { LacksNothing part.old need.now }
    ensures { part.new ≡ part.old }
{
    match need {
        Need::All => part.note_whole(),
        Need::Node(_) | Need::Children(_) | Need::Subtree(_) => {}
    }
}

// The need of the node at a path.
fn node_at(alloc: Global, path: &Path) -> Result<Vec<Need>, AllocError>
    ensures { IfOk result (λ needs. needs.items ≡ need.Node path.now ∷ []) }
{
    let mut needs = Vec::new(alloc);
    needs.push(Need::Node(path.copy()?))?;
    Ok(needs)
}

// The need of the whole tree.
fn whole_tree(alloc: Global) -> Result<Vec<Need>, AllocError>
    ensures { IfOk result (λ needs. needs.items ≡ need.All ∷ []) }
{
    let mut needs = Vec::new(alloc);
    needs.push(Need::All)?;
    Ok(needs)
}

// What lacks first of the first need of which something lacks; None where nothing lacks.
fn first_lacking(part: &HeldPart, needs: &[Need]) -> Result<Option<Need>, AllocError>
    ensures known { IfOk result (λ load. load ≡ None → All (LacksNothing part.now) needs.now) }
    ensures one { IfOk result (λ load. IfSome load (λ n. IsTrue (is_of_one_node n))) }
    ensures lacks { IfOk result (λ load. IfSome load (IsLackingOf part.now needs.now)) }
{
    each_round_learns();
    for need in needs {
        let load = part.lacks(need)?;
        if load.is_some() {
            return Ok(load);
        }
    }
    Ok(None)
}
