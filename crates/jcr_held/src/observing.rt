// The session's cursor over the changes.
ghost use Rattle.std.specs.Prelude.{◌≡◌, [], IfOk, false, true};
ghost use Rattle.std.specs.Option.{option_copied, option_map_or};
ghost use Rattle.std.specs.String.{string_bytes};
ghost use Rattle.jcr_observe.specs.Observed.{observed_events};
ghost use Rattle.jcr_law.specs.Calls.{call_after};
ghost use Rattle.jcr_law.specs.Queries.{events_reply};
ghost use Rattle.jcr_law.specs.State.{Call};
ghost use Rattle.jcr_law.specs.declared.state.Cursor.{Cursor as Standing};
ghost use Rattle.jcr_held.specs.Accepts.{IsFilterOf};
ghost use Rattle.jcr_held.specs.Holds.{Holds};

use crate::Held;
use jcr_call::{events_reply, used};
use jcr_law::Cursor;
use jcr_observe::{Filter, JcrEvent, events};
use jcr_trans::Command;
use jr_tree::CommitChanges;
use std::alloc::AllocError;

impl Held {
    /// The session's cursor over the changes; None where it doesn't observe (JSR 283, 12
    /// Observation).
    pub fn cursor(&self) -> Option<&Cursor>
        ensures { option_copied result ≡ self.now.cursor }
    {
        self.cursor.as_ref()
    }

    /// An `observe` was accepted: the session's cursor stands at the base, and lets the events pass
    /// that the command asks for (JSR 283, 12.5 Asynchronous Observation). No memory is taken.
    pub fn observe(&mut self, command: &Command, filter: Filter)
        requires { IsFilterOf command.now filter }
        ensures { (c : Call) → Holds c self.old
            → Holds (call_after true false c command.now) self.new }
    {
        let at = self.who.base;
        self.cursor = Some(Cursor { at, filter });
        self.count(used(command, true, false));
    }

    /// The reply that shows the events of these commits which the cursor lets pass; without a
    /// cursor there are none.
    pub fn events_reply(&self, commits: &[CommitChanges]) -> Result<String, AllocError>
        ensures { IfOk result (λ reply. string_bytes reply ≡ events_reply (option_map_or
            (λ (x : Standing). observed_events x.filter commits.now) self.now.cursor [])) }
    {
        let shown = self.passing(commits)?;
        events_reply(self.alloc, shown.as_slice())
    }

    // The events of these commits which the cursor lets pass.
    fn passing(&self, commits: &[CommitChanges]) -> Result<Vec<JcrEvent>, AllocError>
        ensures { IfOk result (λ shown. shown.items ≡ option_map_or
            (λ (x : Standing). observed_events x.filter commits.now) self.now.cursor []) }
    {
        match &self.cursor {
            Some(cursor) => events(self.alloc, commits, &cursor.filter),
            None => Ok(Vec::new(self.alloc)),
        }
    }
}
