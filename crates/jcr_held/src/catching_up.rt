// Catching up with a base behind which the whole tree at an earlier one is held.
ghost use Rattle.std.specs.Prelude.{◌≡◌, ◌⊎◌, ◌≤◌, [], IfOk, IfSome, IsTrue, None, Some};
ghost use Rattle.jr_known.specs.Earlier.{AreKnown, Earlier};
ghost use Rattle.jcr_trans.specs.declared.command.Command.{Command};
ghost use Rattle.jcr_view.specs.Rounds.{is_of_one_node};
ghost use Rattle.jcr_law.specs.State.{Call};
ghost use Rattle.jcr_held.specs.Alike.{CatchesUp, IsWholeBehind};
ghost use Rattle.jcr_held.specs.Holds.{HasCaughtUpFor, Holds, asks_for};
ghost use Rattle.jcr_held.specs.Unread.{IsWanted, unread};

use crate::Held;
use jcr_trans::Command;
use jr_known::HeldPart;
use jr_part::Need;
use std::alloc::AllocError;

impl Held {
    /// What to read next of what changed since an earlier tree, before a command that asks for
    /// something; None where that isn't held any more, or nothing is asked for.
    pub(crate) fn catch_up_before(&mut self, command: &Command) -> Result<Option<Need>, AllocError>
        ensures caught { IfOk result (λ load. load ≡ None
            → HasCaughtUpFor self.new (asks_for self.new command.now)) }
        ensures one { IfOk result (λ load. IfSome load (λ n. IsTrue (is_of_one_node n))) }
        ensures holds { (c : Call) → Holds c self.old → Holds c self.new }
        ensures others { CatchesUp self.old self.new }
        ensures whole { (c : Call) → Holds c self.old
            → IfOk result (λ load. IsWholeBehind self.old self.new) }
        ensures wanted { (c : Call) (m : Command)
            → IfOk result (λ load. IfSome load (IsWanted c self.new m)) }
        ensures fewer { (c : Call) (m : Command) → unread c self.new m ≤ unread c self.old m }
    {
        if self.earlier.is_none() {
            return Ok(None);
        }
        let needs = self.asked(command)?;
        self.catch_up_for(needs.as_slice())
    }

    /// What to read next of what changed since an earlier tree, before these needs are looked at;
    /// None where that isn't held any more, or there is no need.
    pub(crate) fn catch_up_for(&mut self, needs: &[Need]) -> Result<Option<Need>, AllocError>
        ensures caught { IfOk result (λ load. load ≡ None → HasCaughtUpFor self.new needs.now) }
        ensures none { needs.now ≡ [] → self.new ≡ self.old }
        ensures one { IfOk result (λ load. IfSome load (λ n. IsTrue (is_of_one_node n))) }
        ensures holds { (c : Call) → Holds c self.old → Holds c self.new }
        ensures others { CatchesUp self.old self.new }
        ensures whole { (c : Call) → Holds c self.old
            → IfOk result (λ load. IsWholeBehind self.old self.new) }
        ensures wanted { (c : Call) (m : Command)
            → IfOk result (λ load. IfSome load (IsWanted c self.new m)) }
        ensures fewer { (c : Call) (m : Command) → unread c self.new m ≤ unread c self.old m }
    {
        if needs.is_empty() {
            return Ok(None);
        }
        self.catch_up()
    }

    // What to read next of what changed since an earlier tree; None where that isn't held any more:
    // once all is read, what is known of the tree at the base is made of both.
    fn catch_up(&mut self) -> Result<Option<Need>, AllocError>
        ensures caught { IfOk result (λ load. load ≡ None → self.new.earlier ≡ None) }
        ensures one { IfOk result (λ load. IfSome load (λ n. IsTrue (is_of_one_node n))) }
        ensures holds { (c : Call) → Holds c self.old → Holds c self.new }
        ensures others { CatchesUp self.old self.new }
        ensures whole { (c : Call) → Holds c self.old
            → IfOk result (λ load. IsWholeBehind self.old self.new) }
        ensures wanted { (c : Call) (m : Command)
            → IfOk result (λ load. IfSome load (IsWanted c self.new m)) }
        ensures fewer { (c : Call) (m : Command) → unread c self.new m ≤ unread c self.old m }
    {
        let Some(earlier) = &mut self.earlier else {
            return Ok(None);
        };
        match earlier.next_unread(self.part.as_part())? {
            Some(path) => Ok(Some(Need::Node(path))),
            None => self.renew(),
        }
    }

    // Makes what is known of the tree at the base of the earlier tree, which goes, and of what was
    // read since. Nothing is to be read for it.
    fn renew(&mut self) -> Result<Option<Need>, AllocError>
        requires read { IfSome self.old.earlier (λ e. AreKnown self.old.part e.told) }
        ensures none { IfOk result (λ load. load ≡ None) }
        ensures caught { self.new.earlier ≡ None }
        ensures holds { (c : Call) → Holds c self.old → Holds c self.new }
        ensures others { CatchesUp self.old self.new }
        ensures whole { (c : Call) → Holds c self.old
            → IfOk result (λ load. IsWholeBehind self.old self.new) }
        ensures fewer { (c : Call) (m : Command) → unread c self.new m ≤ unread c self.old m }
    {
        if let Some(earlier) = self.earlier.take() {
            self.part = HeldPart::of(earlier.renew(self.part.as_part())?);
            self.part.in_order();
        }
        Ok(None)
    }
}
