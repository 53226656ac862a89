// What a session makes of the answer of a step.
ghost use Rattle.std.specs.Prelude.{◌≡◌};
ghost use Rattle.jcr_steps.specs.Answered.{IsAttachAnswer, IsChangesAnswer, IsFirstAnswer};
ghost use Rattle.jcr_steps.specs.Answered.{IsLeaveAnswer, IsListAnswer, IsLoadAnswer, IsPinAnswer};
ghost use Rattle.jcr_steps.specs.Answered.{attached_by, changed_told, ended_by, has_went};
ghost use Rattle.jcr_steps.specs.Answered.{kind_of_end, listed_by, loaded_by, pinned_by};

use jr_path::{List, Name};
use jr_rev::{Pin, Revision};
use jr_tree::{CommitChanges, Node};
use oak_commit::CommitEnd;
use oak_machine::StepKind;
use oak_port::{StepOut, TaskEnd};

/// What a step of reading a node came to: its task goes on, the node was found, or not, or memory
/// was refused.
#[derive(Drop)]
pub enum Loaded {
    Going,
    Found(Option<Node>),
    Refused,
}

/// What a step of reading the names of the children of a node came to: its task goes on, they are
/// these, each with the revision that added the child, or memory was refused.
#[derive(Drop)]
pub enum Listed {
    Going,
    Names(List<(Name, Option<Revision>)>),
    Refused,
}

/// What a step of reading what changed came to: its task goes on, it is in these commits, or memory
/// was refused.
#[derive(Drop)]
pub enum Changed {
    Going,
    Commits(List<CommitChanges>),
    Refused,
}

/// What the step of an attach came to: the checkpoint is this, there is none of that identifier, or
/// memory was refused.
#[derive(Clone, Copy)]
pub enum Attached {
    To(Pin),
    Missed,
    Refused,
}

/// The pin with which a task ended that moves a pin; None where memory was refused.
pub fn pinned(answer: StepOut) -> Option<Pin>
    requires { IsPinAnswer answer }
    ensures { result ≡ pinned_by answer }
{
    let pin = match &answer {
        StepOut::Ready(TaskEnd::Pinned(pin)) => Some(*pin),
        StepOut::Memory => None,
        _ => unreachable!(),
    };
    drop(answer);
    pin
}

/// Whether a leave has ended; else memory was refused.
pub fn has_ended(answer: StepOut) -> bool
    requires { IsLeaveAnswer answer }
    ensures { result ≡ ended_by answer }
{
    let has_ended = match &answer {
        StepOut::Ready(TaskEnd::Ended) => true,
        StepOut::Memory => false,
        _ => unreachable!(),
    };
    drop(answer);
    has_ended
}

/// Whether the first step of a task was made that goes on behind it; else memory was refused.
pub fn has_went(answer: StepOut) -> bool
    requires { IsFirstAnswer answer }
    ensures { result ≡ has_went answer }
{
    let has_went = match &answer {
        StepOut::Went(_) => true,
        StepOut::Memory => false,
        _ => unreachable!(),
    };
    drop(answer);
    has_went
}

/// What a step of reading a node came to.
pub fn load_came(answer: StepOut) -> Loaded
    requires { IsLoadAnswer answer }
    ensures { result ≡ loaded_by answer }
{
    match answer {
        StepOut::Went(_) => Loaded::Going,
        StepOut::Ready(TaskEnd::Node(found)) => Loaded::Found(found),
        StepOut::Memory => Loaded::Refused,
        _ => unreachable!(),
    }
}

/// What a step of reading the names of the children of a node came to.
pub fn list_came(answer: StepOut) -> Listed
    requires { IsListAnswer answer }
    ensures { result ≡ listed_by answer }
{
    match answer {
        StepOut::Went(_) => Listed::Going,
        StepOut::Ready(TaskEnd::Children(names)) => Listed::Names(names),
        StepOut::Memory => Listed::Refused,
        _ => unreachable!(),
    }
}

/// What the step of an attach came to.
pub fn attach_came(answer: StepOut) -> Attached
    requires { IsAttachAnswer answer }
    ensures { result ≡ attached_by answer }
{
    let came = match &answer {
        StepOut::Ready(TaskEnd::Set(Some(pin))) => Attached::To(*pin),
        StepOut::Ready(TaskEnd::NoCheckpoint) => Attached::Missed,
        StepOut::Memory => Attached::Refused,
        _ => unreachable!(),
    };
    drop(answer);
    came
}

/// What a step of reading what changed came to.
pub fn changes_came(answer: StepOut) -> Changed
    requires { IsChangesAnswer answer }
    ensures { result ≡ changed_told answer }
{
    match answer {
        StepOut::Went(_) => Changed::Going,
        StepOut::Ready(TaskEnd::Changes(commits)) => Changed::Commits(commits),
        StepOut::Memory => Changed::Refused,
        _ => unreachable!(),
    }
}

/// The kind of the step that ended a commit.
pub fn last_kind(end: &CommitEnd) -> StepKind
    ensures { result ≡ kind_of_end end.now }
{
    match end {
        CommitEnd::Committed(_) => StepKind::Pin,
        _ => StepKind::Finish,
    }
}
