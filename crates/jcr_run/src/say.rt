// What a session answers.
ghost use Rattle.std.specs.Prelude.{◌≡◌, IfOk, IsSome, None, OnErr, false, length, slice_get};
ghost use Rattle.std.specs.Prelude.{string_bytes, true, ⊤};
ghost use Rattle.oak_port.specs.Ports.{HasRoom};
ghost use Rattle.jcr_law.specs.State.{is_ok_text};
ghost use Rattle.jcr_trans.specs.Texts.{memory_text};
ghost use Rattle.jcr_held.specs.Holds.{IsReady};
ghost use Rattle.jcr_run.specs.Asked.{HasSeen, IsBarred, IsQueried, IsQueriedAs, IsUnviewedNext};
ghost use Rattle.jcr_run.specs.Asked.{MayAnswer, MayForgo, MaySettle, ObservesNext, Settles};
ghost use Rattle.jcr_run.specs.Asked.{SettlesBy};
ghost use Rattle.jcr_run.specs.Nearing.{IsReply};
ghost use Rattle.jcr_run.specs.Standing.{HasCounted, IsGranted, IsPrepared, Stands, due_by};
ghost use Rattle.jcr_run.specs.Standing.{due_for};
ghost use Rattle.jcr_steps.specs.declared.limits.TheConstants.{COMMIT_REPLY_BYTES};
ghost use Rattle.jcr_run.specs.declared.next.Due.TheVariants as due;
ghost use Rattle.jcr_run.specs.declared.run.Phase.TheVariants as phase;

use crate::run::{Phase, SessionRun};
use crate::turn::Turn;
use jcr_call::cause_text;
use jcr_law::JcrLaw;
use jcr_observe::Filter;
use jcr_trans::Command;
use jr_items::unsupported;
use jr_path::{List, Text};
use oak_port::Port;
use std::alloc::AllocError;

/// The reply where memory was refused.
pub const MEMORY_REPLY: &str = "no 16 []";

impl SessionRun {
    /// Refuses a command that isn't built, or that the session may not run.
    pub fn bar<P: Port<L = JcrLaw>>(&mut self, port: &mut P) -> Turn
        requires stands { Stands (P.law port.old) (P.shown port.old) self.old }
        requires between { self.old.phase ≡ phase.Between }
        requires next { due_for self.old ≡ due.Bar }
        ensures law { P.law port.new ≡ P.law port.old }
        ensures turned { HasCounted (P.law port.old) (P.shown port.old) (P.shown port.new)
            self.old self.new result }
        ensures said { IsReply result }
    {
        let text = self.barred();
        self.say_settled(port, text)
    }

    // The reply to a command that isn't built, or that the session may not run.
    fn barred(&self) -> Result<String, AllocError>
        requires { due_for self.now ≡ due.Bar }
        ensures { IfOk result (IsBarred self.now) }
    {
        match self.commands.as_slice().get(self.index as usize) {
            Some(command) => {
                let refusal = unsupported(self.alloc, command.word());
                cause_text(self.alloc, &refusal)
            }
            None => unreachable!(),
        }
    }

    /// Answers a query by the tree at the base.
    pub fn query<P: Port<L = JcrLaw>>(&mut self, port: &mut P) -> Turn
        requires stands { Stands (P.law port.old) (P.shown port.old) self.old }
        requires between { self.old.phase ≡ phase.Between }
        requires next { due_for self.old ≡ due.Query }
        requires ready { IsPrepared self.old }
        ensures law { P.law port.new ≡ P.law port.old }
        ensures turned { HasCounted (P.law port.old) (P.shown port.old) (P.shown port.new)
            self.old self.new result }
        ensures said { IsReply result }
    {
        let text = self.queried();
        self.say_settled(port, text)
    }

    // The reply to a query.
    fn queried(&self) -> Result<String, AllocError>
        requires next { due_for self.now ≡ due.Query }
        requires ready { IsPrepared self.now }
        ensures { IfOk result (IsQueried self.now) }
    {
        match self.commands.as_slice().get(self.index as usize) {
            Some(command) => self.query_by(command),
            None => unreachable!(),
        }
    }

    // The reply to this query.
    fn query_by(&self, command: &Command) -> Result<String, AllocError>
        requires next { due_by command.now ≡ due.Query }
        requires ready { IsReady self.now.held command.now }
        ensures { IfOk result (IsQueriedAs self.now.held command.now) }
    {
        match command {
            Command::Query(text, vars) => self.held.query(text, vars),
            _ => unreachable!(),
        }
    }

    /// Answers by the view.
    pub fn see<P: Port<L = JcrLaw>>(&mut self, port: &mut P) -> Turn
        requires stands { Stands (P.law port.old) (P.shown port.old) self.old }
        requires between { self.old.phase ≡ phase.Between }
        requires next { due_for self.old ≡ due.See }
        requires ready { IsPrepared self.old }
        ensures law { P.law port.new ≡ P.law port.old }
        ensures turned { HasCounted (P.law port.old) (P.shown port.old) (P.shown port.new)
            self.old self.new result }
        ensures said { IsReply result }
    {
        match self.seen() {
            Ok(text) => self.say(port, text.as_str()),
            Err(AllocError) => self.say_memory(port),
        }
    }

    // The reply by the view.
    fn seen(&mut self) -> Result<String, AllocError>
        requires next { due_for self.old ≡ due.See }
        requires ready { IsPrepared self.old }
        ensures same { self.new ≡ record self.old { held = self.new.held } }
        ensures sees { HasSeen self.old self.new result }
    {
        let SessionRun {
            commands,
            index,
            held,
            ..
        } = self;
        match commands.as_slice().get(*index as usize) {
            Some(command) => held.see(command),
            None => unreachable!(),
        }
    }

    /// Says a reply for which nothing was drawn, to a command that isn't answered by the view; or
    /// that memory was refused for it.
    pub fn say_settled<P: Port<L = JcrLaw>>(
        &mut self,
        port: &mut P,
        text: Result<String, AllocError>,
    ) -> Turn
        requires settles { IfOk text (λ text. MaySettle (P.law port.old) (P.shown port.old)
            self.old (string_bytes text)) }
        requires memory { OnErr text (MayForgo (P.law port.old) (P.shown port.old) self.old false) }
        ensures law { P.law port.new ≡ P.law port.old }
        ensures turned { HasCounted (P.law port.old) (P.shown port.old) (P.shown port.new)
            self.old self.new result }
        ensures said { IsReply result }
    {
        match text {
            Ok(text) => {
                self.settle(text.as_str());
                self.say(port, text.as_str())
            }
            Err(AllocError) => self.say_memory(port),
        }
    }

    /// Says the reply where memory was refused for a command for which nothing was drawn.
    pub fn say_memory<P: Port<L = JcrLaw>>(&mut self, port: &mut P) -> Turn
        requires forgoes { MayForgo (P.law port.old) (P.shown port.old) self.old false }
        ensures law { P.law port.new ≡ P.law port.old }
        ensures turned { HasCounted (P.law port.old) (P.shown port.old) (P.shown port.new)
            self.old self.new result }
        ensures said { IsReply result }
    {
        self.refuse(false);
        self.say(port, MEMORY_REPLY)
    }

    /// Says the reply where memory was refused, for which there is a place.
    pub fn forgo<P: Port<L = JcrLaw>>(&mut self, port: &mut P, drew: bool) -> Turn
        requires forgoes { MayForgo (P.law port.old) (P.shown port.old) self.old drew }
        requires room { HasRoom (P.shown port.old).room COMMIT_REPLY_BYTES }
        ensures law { P.law port.new ≡ P.law port.old }
        ensures turned { HasCounted (P.law port.old) (P.shown port.old) (P.shown port.new)
            self.old self.new result }
        ensures granted { IsGranted result }
        ensures said { IsReply result }
    {
        self.refuse(drew);
        self.say_kept(port, MEMORY_REPLY)
    }

    /// Says a reply.
    pub fn say<P: Port<L = JcrLaw>>(&mut self, port: &mut P, text: &str) -> Turn
        requires answer { MayAnswer (P.law port.old) (P.shown port.old) self.old text.now }
        ensures law { P.law port.new ≡ P.law port.old }
        ensures turned { HasCounted (P.law port.old) (P.shown port.old) (P.shown port.new)
            self.old self.new result }
        ensures said { IsReply result }
    {
        let Ok(()) = port.reserve_say(text.len()) else {
            return Turn::Memory;
        };
        self.say_kept(port, text)
    }

    /// Says a reply, or that memory was refused, for which there is a place.
    pub fn say_or_memory<P: Port<L = JcrLaw>>(&mut self, port: &mut P, text: &str) -> Turn
        requires answer { MayAnswer (P.law port.old) (P.shown port.old) self.old text.now }
        requires memory { MayAnswer (P.law port.old) (P.shown port.old) self.old memory_text }
        requires room { HasRoom (P.shown port.old).room COMMIT_REPLY_BYTES }
        ensures law { P.law port.new ≡ P.law port.old }
        ensures turned { HasCounted (P.law port.old) (P.shown port.old) (P.shown port.new)
            self.old self.new result }
        ensures granted { IsGranted result }
        ensures said { IsReply result }
    {
        match port.reserve_say(text.len()) {
            Ok(()) => self.say_kept(port, text),
            Err(AllocError) => self.say_kept(port, MEMORY_REPLY),
        }
    }

    /// Says a reply for which there is a place.
    pub fn say_kept<P: Port<L = JcrLaw>>(&mut self, port: &mut P, text: &str) -> Turn
        requires answer { MayAnswer (P.law port.old) (P.shown port.old) self.old text.now }
        requires room { HasRoom (P.shown port.old).room (length text.now) }
        ensures law { P.law port.new ≡ P.law port.old }
        ensures turned { HasCounted (P.law port.old) (P.shown port.old) (P.shown port.new)
            self.old self.new result }
        ensures granted { IsGranted result }
        ensures said { IsReply result }
    {
        let index = self.index;
        port.say(index, text);
        self.index = index + 1;
        self.phase = Phase::Between;
        self.changes = None;
        Turn::Said(index)
    }

    /// The next command is answered so, and nothing was drawn for it.
    pub fn settle(&mut self, text: &str)
        requires { IsUnviewedNext self.old }
        ensures { Settles self.old self.new (is_ok_text text.now) false None }
    {
        if text.starts_with("ok") {
            self.accept(false, None);
        } else {
            self.refuse(false);
        }
    }

    /// The next command, which the view doesn't answer, is accepted. The tokens that are held then
    /// are those given, or they stay.
    pub fn accept(&mut self, drew: bool, tokens: Option<List<Text>>)
        requires next { IsUnviewedNext self.old }
        ensures { Settles self.old self.new true drew tokens }
    {
        let SessionRun {
            commands,
            index,
            held,
            ..
        } = self;
        match commands.as_slice().get(*index as usize) {
            Some(command) => held.accept(command, drew, tokens),
            None => unreachable!(),
        }
    }

    /// The next command, which observes, is accepted with its filter.
    pub fn observe(&mut self, filter: Filter)
        requires { ObservesNext self.old filter }
        ensures { SettlesBy (λ c m. ⊤) self.old self.new true false }
    {
        let SessionRun {
            commands,
            index,
            held,
            ..
        } = self;
        match commands.as_slice().get(*index as usize) {
            Some(command) => held.observe(command, filter),
            None => unreachable!(),
        }
    }

    /// The next command is refused.
    pub fn refuse(&mut self, drew: bool)
        requires next { IsSome (slice_get self.old.commands self.old.index) }
        ensures { Settles self.old self.new false drew None }
    {
        let SessionRun {
            commands,
            index,
            held,
            ..
        } = self;
        match commands.as_slice().get(*index as usize) {
            Some(command) => held.refuse(command, drew),
            None => unreachable!(),
        }
    }
}
