// What a session does, and the kind of its next step.
ghost use Rattle.std.specs.Prelude.{◌≡◌, IfOk};
ghost use Rattle.oak_step.specs.Works.{Begins, CanBegin, kind_due, kind_of_stage};

use crate::upkeep::Upkeep;
use jr_path::List;
use jr_rev::{Pin, Revision};
use jr_tree::Edit;
use oak_changes::ChangesReader;
use oak_clash::MarkAt;
use oak_commit::{Committer, Stage};
use oak_gc::Collector;
use oak_machine::{Event, StepKind};
use oak_port::Task;
use oak_prev::Splitter;
use oak_read::Reader;
use oak_sync::BackRead;
use oak_tidy::Tidying;
use std::alloc::{AllocError, Global};

/// What a session does.
#[derive(Drop)]
pub enum Work {
    /// Nothing.
    Rest,
    Login,
    End,
    Refresh,
    /// A load, or a list.
    Read(Reader),
    /// A reading of what commits changed.
    Changes(ChangesReader),
    /// A commit that hasn't drawn its revision.
    Plan(Edit, List<MarkAt>),
    /// A commit from its draw to its end.
    Commit(Committer),
    /// An accepted commit that has ended: the base moves as soon as the head sees its revision.
    Move(Revision),
    /// Background work, or a change of the settings.
    Upkeep(Upkeep),
    /// A split or a collection, whose steps are made over the memories of all cluster nodes.
    Tidy(Tidying),
    /// How a split or a collection ended, which is to be told with the next reply.
    Told(Event),
}

impl Work {
    /// What a session does that is told to do a task, at its pin, where there are so many cluster
    /// nodes.
    pub fn of(
        alloc: Global,
        clusters: u32,
        pin: Option<Pin>,
        task: Task,
    ) -> Result<Work, AllocError>
        requires { CanBegin pin task }
        ensures { IfOk result (Begins clusters pin task) }
    {
        match task {
            Task::Login => Ok(Work::Login),
            Task::End => Ok(Work::End),
            Task::Refresh => Ok(Work::Refresh),
            Task::Load(path) => match pin {
                Some(pin) => Ok(Work::Read(Reader::node(alloc, &path, &pin)?)),
                None => unreachable!(),
            },
            Task::List(path) => match pin {
                Some(pin) => Ok(Work::Read(Reader::children(alloc, &path, &pin)?)),
                None => unreachable!(),
            },
            Task::Changes(since) => match pin {
                Some(pin) => Ok(Work::Changes(ChangesReader::new(alloc, &since, &pin))),
                None => unreachable!(),
            },
            Task::Commit(edit, marks) => Ok(Work::Plan(edit, marks)),
            Task::BackWrite => Ok(Work::Upkeep(Upkeep::Write)),
            Task::BackRead => Ok(Work::Upkeep(Upkeep::Read(BackRead::new(alloc)))),
            Task::Sweep => Ok(Work::Upkeep(Upkeep::Sweep)),
            Task::Checkpoint(name) => Ok(Work::Upkeep(Upkeep::Checkpoint(name))),
            Task::Release(name) => Ok(Work::Upkeep(Upkeep::Release(name))),
            Task::Attach(name) => Ok(Work::Upkeep(Upkeep::Attach(name))),
            Task::Detach => Ok(Work::Upkeep(Upkeep::Detach)),
            Task::Observe => Ok(Work::Upkeep(Upkeep::Observe)),
            Task::Split(path) => match pin {
                Some(pin) => Ok(Work::Tidy(Tidying::Split(Splitter::new(alloc, &path, &pin)?))),
                None => unreachable!(),
            },
            Task::Collect => Ok(Work::Tidy(Tidying::Collect(Collector::new(alloc, clusters)?))),
            // No world stops or recovers yet.
            Task::Stop(_) | Task::Recover(_) => unreachable!(),
        }
    }

    /// The kind of the next step, if there is one.
    pub fn due(&self) -> Option<StepKind>
        ensures { result ≡ kind_due self.now }
    {
        match self {
            Work::Rest | Work::Told(_) => None,
            Work::Login => Some(StepKind::Login),
            Work::End => Some(StepKind::End),
            Work::Refresh | Work::Move(_) => Some(StepKind::Pin),
            Work::Read(_) | Work::Changes(_) => Some(StepKind::Read),
            Work::Plan(_, _) => Some(StepKind::Draw),
            Work::Commit(committer) => kind_of(committer.stage()),
            Work::Upkeep(upkeep) => Some(upkeep.due()),
            Work::Tidy(tidying) => Some(tidying.due()),
        }
    }
}

// The kind of the step of a committer.
fn kind_of(stage: Stage) -> Option<StepKind>
    ensures { result ≡ kind_of_stage stage }
{
    match stage {
        Stage::Mark => Some(StepKind::Mark),
        Stage::Write => Some(StepKind::Write),
        Stage::Look => Some(StepKind::Read),
        Stage::Last => Some(StepKind::Last),
        Stage::Undo => Some(StepKind::Undo),
        Stage::Finish => Some(StepKind::Finish),
        Stage::Done => None,
    }
}
