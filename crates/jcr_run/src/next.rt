// What is to be done for the next command of a session.
ghost use Rattle.std.specs.Prelude.{◌≡◌};
ghost use Rattle.jcr_run.specs.Standing.{due_by, due_for, due_to, may_read, reads_for};

use crate::run::{Phase, SessionRun};
use jcr_call::{commits, is_allowed};
use jcr_trans::Command;

/// What is to be done for the next command.
#[derive(Clone, Copy, PartialEq, Eq)]
pub enum Due {
    /// No command is left: the session leaves.
    Leave,
    /// The session may not run the command, or it isn't built: the command is refused.
    Bar,
    /// `head`: the base is shown.
    ShowBase,
    /// `refresh`: the base moves.
    Refresh,
    /// A query is answered by the tree at the base.
    Query,
    /// What is due for the command is committed.
    Commit,
    /// Background work or a sweep is done, or a checkpoint is made or released.
    Errand,
    /// The session attaches to a checkpoint: the base moves there.
    Attach,
    /// The session leaves its checkpoint: the base moves to the head.
    Detach,
    /// The session's cursor over the changes is set at the base.
    Observe,
    /// What changed since the session's cursor is shown.
    Events,
    /// The document of a node is split.
    Split,
    /// Garbage is collected.
    Collect,
    /// Another command is answered by the view.
    See,
}

impl SessionRun {
    /// What is to be done for the next command.
    pub fn due(&self) -> Due
        ensures { result ≡ due_for self.now }
    {
        match self.commands.as_slice().get(self.index as usize) {
            None => Due::Leave,
            Some(command) => due_to(self.attached, command),
        }
    }

    /// Whether the session is before a command for which it may have to read.
    pub fn may_read(&self) -> bool
        ensures { result ≡ may_read self.now }
    {
        match &self.phase {
            Phase::Between => reads_for(self.due()),
            _ => false,
        }
    }
}

// What is to be done for a command of a session that is attached to a checkpoint, or isn't.
fn due_to(attached: bool, command: &Command) -> Due
    ensures { result ≡ due_to attached command.now }
{
    if !is_allowed(attached, command) {
        return Due::Bar;
    }
    due_by(command)
}

// What is to be done for a command that the session may run.
fn due_by(command: &Command) -> Due
    ensures { result ≡ due_by command.now }
{
    match command {
        Command::Head => Due::ShowBase,
        Command::Refresh(_) => Due::Refresh,
        Command::Query(_, _) => Due::Query,
        Command::BackWrite => Due::Errand,
        Command::BackRead => Due::Errand,
        Command::Sweep => Due::Errand,
        Command::Checkpoint => Due::Errand,
        Command::Release(_) => Due::Errand,
        Command::Attach(_) => Due::Attach,
        Command::Detach => Due::Detach,
        Command::Observe(_, _, _) => Due::Observe,
        Command::Events => Due::Events,
        Command::Split(_) => Due::Split,
        Command::Collect => Due::Collect,
        _ => {
            if commits(command) {
                Due::Commit
            } else {
                Due::See
            }
        }
    }
}

// Whether what is to be done may ask for nodes of the tree at the base, for what is pending there,
// or for what changed.
fn reads_for(due: Due) -> bool
    ensures { result ≡ reads_for due }
{
    !matches!(
        due,
        Due::Leave | Due::Bar | Due::ShowBase | Due::Errand | Due::Observe | Due::Collect
    )
}
