// Commands that the view answers.
ghost use Rattle.std.specs.Prelude.{◌≡◌, IfOk, IsTrue, OnErr, OnOk};
ghost use Rattle.std.specs.String.{string_bytes};
ghost use Rattle.jcr_trans.specs.Answers.{Done};
ghost use Rattle.jcr_trans.specs.Texts.{answer_text};
ghost use Rattle.jcr_view.specs.Outcomes.{is_viewed};
ghost use Rattle.jcr_law.specs.State.{Call, with_token, without_token};
ghost use Rattle.jcr_held.specs.Alike.{AreAlike, with_drawn};
ghost use Rattle.jcr_held.specs.Holds.{Holds, IsReady};
ghost use Rattle.jcr_held.specs.Sees.{Sees, outcome_of, with_outcome};

use crate::Held;
use jcr_call::{cause_text, with_token, without_token};
use jcr_trans::{Command, done_reply};
use jcr_view::{needs_are_enough, steps_count, whole_trees_are_asked_for};
use jr_path::{List, Text};
use std::alloc::AllocError;

impl Held {
    /// Runs a command that the view answers and for which all is read, and answers the text of its
    /// reply (JSR 283, 5 Reading; 10 Writing; 17.5 Lock Token). Where memory is refused all is left
    /// as it was.
    pub fn see(&mut self, command: &Command) -> Result<String, AllocError>
        requires viewed { IsTrue (is_viewed command.now) }
        requires ready { IsReady self.old command.now }
        ensures { (c : Call) → Holds c self.old → Sees c command.now self.new result }
    {
        needs_are_enough();
        steps_count();
        match command {
            Command::Token(token) => self.take_token(token),
            Command::DropToken(token) => self.drop_token(token),
            _ => self.run(command),
        }
    }

    // The session holds a lock token.
    fn take_token(&mut self, token: &Text) -> Result<String, AllocError>
        ensures text { IfOk result (λ text. string_bytes text ≡ answer_text Done) }
        ensures ok { OnOk result (AreAlike (with_drawn
            (record self.old { tokens = with_token self.old.tokens token.now }) 0) self.new) }
        ensures err { OnErr result (self.new ≡ self.old) }
    {
        let tokens = with_token(self.alloc, self.tokens.as_slice(), token)?;
        self.hold(tokens)
    }

    // The session lets a lock token go.
    fn drop_token(&mut self, token: &Text) -> Result<String, AllocError>
        ensures text { IfOk result (λ text. string_bytes text ≡ answer_text Done) }
        ensures ok { OnOk result (AreAlike (with_drawn
            (record self.old { tokens = without_token self.old.tokens token.now }) 0) self.new) }
        ensures err { OnErr result (self.new ≡ self.old) }
    {
        let tokens = without_token(self.alloc, self.tokens.as_slice(), token)?;
        self.hold(tokens)
    }

    // The session holds these lock tokens, once its reply is made.
    fn hold(&mut self, tokens: List<Text>) -> Result<String, AllocError>
        ensures text { IfOk result (λ text. string_bytes text ≡ answer_text Done) }
        ensures ok { OnOk result (AreAlike
            (with_drawn (record self.old { tokens = tokens }) 0) self.new) }
        ensures err { OnErr result (self.new ≡ self.old) }
    {
        let text = done_reply(self.alloc)?;
        self.tokens = tokens;
        self.count(0);
        Ok(text)
    }

    // A command that reads or writes items.
    fn run(&mut self, command: &Command) -> Result<String, AllocError>
        requires viewed { IsTrue (is_viewed command.now) }
        requires ready { IsReady self.old command.now }
        ensures text { IfOk result (λ text. string_bytes text
            ≡ answer_text (outcome_of self.old command.now).answer) }
        ensures ok { OnOk result (AreAlike
            (with_drawn (with_outcome self.old (outcome_of self.old command.now)) 0) self.new) }
        ensures err { OnErr result (self.new ≡ self.old) }
    {
        let text = self.reply(command)?;
        self.count(0);
        Ok(text)
    }

    // What a command answers that reads or writes items.
    fn reply(&mut self, command: &Command) -> Result<String, AllocError>
        requires viewed { IsTrue (is_viewed command.now) }
        requires ready { IsReady self.old command.now }
        ensures text { IfOk result (λ text. string_bytes text
            ≡ answer_text (outcome_of self.old command.now).answer) }
        ensures ok { OnOk result (self.new
            ≡ with_outcome self.old (outcome_of self.old command.now)) }
        ensures err { OnErr result (self.new ≡ self.old) }
    {
        whole_trees_are_asked_for();
        match self
            .pending
            .run(command, self.part.as_part(), &self.types, &mut self.who)
        {
            Ok(text) => Ok(text),
            Err(refusal) => cause_text(self.alloc, &refusal),
        }
    }
}
