// The commands of the sessions, dealt to the workers that run them.
ghost use Rattle.std.specs.Prelude.{◌≡◌, ◌≤◌, ◌++◌, ◌∷◌, [], IfOk, MatchOption, OnOk, length, replicate};
ghost use Rattle.jr_work.specs.Hands.{AreDealt};

use jcr_trans::{Command, SessionScript};
use jr_path::List;
use std::alloc::{AllocError, Global};
use std::collections::VecDeque;
use std::marker::Model;

// The commands of a worker's sessions, in the order in which it runs them.
pub(crate) struct Hand {
    commands: VecDeque<List<Command>>,
}

// By hand, so that its parts are let go in one call.
impl Drop for Hand {
    fn drop(self) {
        let Hand { commands } = self;
        drop(commands);
    }
}

impl Model for Hand {
    ghost use Rattle.std.specs.Prelude.{List as Seq};
    ghost use Rattle.jcr_trans.specs.declared.command.Command.{Command as Asked};

    ghost Value = { Seq (Seq Asked) };

    ghost view = { λ h. h.commands.items };
}

impl Hand {
    fn new(alloc: Global) -> Hand
        ensures { result ≡ [] }
    {
        Hand {
            commands: VecDeque::new(alloc),
        }
    }

    // Puts the commands of a session behind those of others.
    fn put(&mut self, commands: List<Command>) -> Result<(), AllocError>
        ensures { OnOk result (self.new ≡ self.old ++ commands ∷ []) }
    {
        self.commands.push_back(commands)?;
        Ok(())
    }

    // Takes the commands of the session that is next.
    pub(crate) fn next(&mut self) -> Option<List<Command>>
        ensures { MatchOption result (self.old ≡ [])
            (λ commands. self.old ≡ commands ∷ self.new) }
    {
        self.commands.pop_front()
    }
}

// Deals the commands of each session to its worker.
pub(crate) fn deal(
    alloc: Global,
    workers: u32,
    sessions: List<SessionScript>,
) -> Result<Vec<Hand>, AllocError>
    requires some { 1 ≤ workers }
    requires few { length sessions ≤ 64 }
    ensures { IfOk result (λ hands. AreDealt sessions workers hands.items) }
{
    let mut hands = hands_of(alloc, workers)?;
    let mut s = 0;
    for session in sessions.into_inner() {
        hands[(s % workers) as usize].put(session.commands)?;
        s += 1;
    }
    Ok(hands)
}

// A hand with nothing in it for each worker.
fn hands_of(alloc: Global, workers: u32) -> Result<Vec<Hand>, AllocError>
    ensures { IfOk result (λ hands. hands.items ≡ replicate workers []) }
{
    let mut hands = Vec::new(alloc);
    for _ in 0..workers {
        hands.push(Hand::new(alloc))?;
    }
    Ok(hands)
}
