// Commands that commit, and queries.
ghost use Rattle.std.specs.Prelude.{◌≡◌, IfOk, IsFalse, IsTrue, is_some, option_map};
ghost use Rattle.std.specs.String.{string_bytes};
ghost use Rattle.jr_part.specs.Parts.{LacksNothing};
ghost use Rattle.jr_part.specs.declared.need.Need.TheVariants as need;
ghost use Rattle.jr_overlay.specs.Overlays.{edit_of};
ghost use Rattle.jr_types.specs.Rules.{TypesOk};
ghost use Rattle.jcr_trans.specs.declared.command.Command.TheVariants.{Query};
ghost use Rattle.jcr_call.specs.Dues.{writes_due};
ghost use Rattle.jcr_call.specs.Footings.{IsAsKnown, IsOn};
ghost use Rattle.jcr_law.specs.Commits.{edit_due};
ghost use Rattle.jcr_law.specs.Queries.{QueryAnswers};
ghost use Rattle.jcr_law.specs.State.{Call};
ghost use Rattle.jcr_law.specs.Makes.{commits};
ghost use Rattle.jcr_held.specs.Comes.{ComesTo};
ghost use Rattle.jcr_held.specs.Holds.{Holds, IsReady};

use crate::Held;
use crate::references::are_named;
use jcr_call::{Coming, Due, Footing, come, edit_due, query_reply};
use jcr_plan::Assured;
use jcr_trans::Command;
use jr_path::{Keyed, Name, Text};
use jr_value::Value;
use std::alloc::AllocError;

impl Held {
    /// What a command that commits, and for which all is read, comes to before its commit: a reply,
    /// or a plan and its accepted reply (JSR 283, 10.11 Saving; 15 Versioning; 17 Locking). What is
    /// pending is due for `save`. The tree at the base meets the rules of its types, so that its
    /// plan goes over those nodes alone that the edit touches (3.7 Node Types); and over no
    /// REFERENCE that the edit can't change, where each is known to name a node (3.8 Referential
    /// Integrity): as `next_load` asked once at this base, or as the plan told of the edit that
    /// `follow` took.
    pub fn come(&self, command: &Command) -> Result<Coming, AllocError>
        requires ready { IsReady self.now command.now }
        requires commits { IsTrue (commits command.now) }
        ensures { (c : Call) → Holds c self.now → TypesOk c.types c.base
            → IfOk result (ComesTo c command.now) }
    {
        let footing = self.footing();
        match self.due(&footing, command)? {
            Some(due) => come(self.alloc, &footing, command, due),
            None => unreachable!(),
        }
    }

    // The edit that is due for a command that commits, or its refusal.
    fn due(&self, footing: &Footing<'_>, command: &Command) -> Result<Option<Due>, AllocError>
        requires settled { IsFalse self.now.is_kept }
        requires commits { IsTrue (commits command.now) }
        ensures some { IfOk result (λ due. IsTrue (is_some due)) }
        ensures due { (c : Call) → Holds c self.now → IsOn footing.now c → IfOk result (λ due.
            option_map writes_due due ≡ edit_due c command.now) }
    {
        match command {
            Command::Save => self.pending_due(),
            _ => edit_due(self.alloc, footing, command),
        }
    }

    // The edit that what is pending comes to.
    fn pending_due(&self) -> Result<Option<Due>, AllocError>
        ensures { IfOk result (λ due. option_map writes_due due
            ≡ Some (Ok (edit_of self.now.pending))) }
    {
        let edit = self.pending.edit()?;
        Ok(Some(Due::Edited(edit)))
    }

    // What commands that commit are run on. Of the tree it is assured that it is one and meets the
    // rules of its types, and that each REFERENCE names a node where that is known.
    fn footing(&self) -> Footing<'_>
        requires settled { IsFalse self.now.is_kept }
        requires known { LacksNothing self.now.part need.All }
        ensures on { (c : Call) → Holds c self.now → IsOn result c }
        ensures assured { (c : Call) → Holds c self.now → TypesOk c.types c.base
            → IsAsKnown result c }
    {
        Footing {
            types: &self.types,
            who: &self.who,
            base: self.part.whole(),
            tokens: self.tokens.as_slice(),
            is_tree: true,
            assured: Assured {
                typed: true,
                referring: are_named(self.references),
            },
        }
    }

    /// The reply of a query by the tree at the base, all of which is read (JSR 283, 6 Query).
    pub fn query(&self, text: &Text, vars: &Keyed<Name, Value>) -> Result<String, AllocError>
        requires { IsReady self.now (Query text.now vars.now) }
        ensures { (c : Call) → Holds c self.now → IfOk result (λ reply.
            QueryAnswers c text.now vars.now (string_bytes reply)) }
    {
        query_reply(self.alloc, &self.types, self.part.whole(), text, vars)
    }
}
