// What tidies documents: what it asks, and how it has ended.
ghost use Rattle.std.specs.Prelude.{◌≡◌, ◌↔◌, IfOk, IsTrue, OnOk};
ghost use Rattle.oak_doc.specs.declared.asks.Ask.TheVariants as ask;
ghost use Rattle.oak_tidy.specs.Tidyings.{ComesTo, TidiesTo, bound_told, kind_collect, kind_split, kind_tidied, tidying_ask, tidying_fed};

use jr_path::DeepCopy;
use jr_rev::{Pin, RevVec};
use oak_doc::{Ask, Reply};
use oak_gc::Collector;
use oak_machine::{Event, StepKind};
use oak_port::TaskEnd;
use oak_prev::Splitter;
use std::alloc::AllocError;

/// A split or a collection, as a session does one.
#[derive(Drop)]
pub enum Tidying {
    /// Old entries of a node's document move to a previous document.
    Split(Splitter),
    /// Garbage of the bound of all that is held is dropped.
    Collect(Collector),
}

/// What a step leaves of what tidies documents.
#[derive(Drop)]
pub enum Tidied {
    /// The task goes on.
    Going(Tidying),
    /// The task has ended, and how it ended is to be told with the session's next reply.
    Told(Event),
    /// Memory was refused, and the task is gone.
    Gone,
}

// What a reply makes of what tidies documents.
#[derive(Drop)]
pub(crate) enum Onward {
    Goes(Tidying),
    // How it has ended, and the event that tells so.
    Ends(TaskEnd, Event),
}

impl Tidying {
    /// The kind of the next step.
    pub fn due(&self) -> StepKind
        ensures { result ≡ kind_tidied self.now }
    {
        match self {
            Tidying::Split(splitter) => kind_split(splitter.stage()),
            Tidying::Collect(collector) => kind_collect(collector.stage()),
        }
    }

    // The one operation that is due, or Done.
    pub(crate) fn next(&self) -> Result<Ask, AllocError>
        ensures { IfOk result (λ asking. asking ≡ tidying_ask self.now) }
    {
        match self {
            Tidying::Split(splitter) => splitter.next(),
            Tidying::Collect(collector) => collector.next(),
        }
    }

    // Takes the reply to what is due.
    pub(crate) fn feed(&mut self, reply: Reply) -> Result<(), AllocError>
        ensures { OnOk result (self.new ≡ tidying_fed self.old reply) }
    {
        match self {
            Tidying::Split(splitter) => splitter.feed(reply),
            Tidying::Collect(collector) => collector.feed(reply),
        }
    }

    // Whether nothing more is due.
    pub(crate) fn is_done(&self) -> bool
        ensures { IsTrue result ↔ (tidying_ask self.now ≡ ask.Done) }
    {
        match self {
            Tidying::Split(splitter) => splitter.is_done(),
            Tidying::Collect(collector) => collector.is_done(),
        }
    }

    // What it is after a reply: it goes on, or it has ended, and how is copied for its event.
    pub(crate) fn fed(self, s: u32, reply: Reply) -> Result<Onward, AllocError>
        ensures { IfOk result (ComesTo s (tidying_fed self reply)) }
    {
        let mut tidying = self;
        tidying.feed(reply)?;
        tidying.onward(s)
    }

    // Whether it goes on, or how it has ended.
    pub(crate) fn onward(self, s: u32) -> Result<Onward, AllocError>
        ensures { IfOk result (ComesTo s self) }
    {
        if self.is_done() {
            let (end, told) = self.end(s)?;
            return Ok(Onward::Ends(end, told));
        }
        Ok(Onward::Goes(self))
    }

    // How it has ended, and the event that tells so.
    fn end(self, s: u32) -> Result<(TaskEnd, Event), AllocError>
        requires { tidying_ask self ≡ ask.Done }
        ensures { IfOk result (λ ended. TidiesTo s self ended.0 ended.1) }
    {
        match self {
            Tidying::Split(splitter) => {
                let (path, end) = splitter.end();
                Ok((TaskEnd::Split(end), Event::Split(s, path, end)))
            }
            Tidying::Collect(collector) => {
                let collected = collector.end();
                let copy = collected.copy()?;
                Ok((TaskEnd::Collected(collected), Event::Collected(s, copy)))
            }
        }
    }

    // The bound of a collection, as far as it was told.
    pub(crate) fn bound(&self) -> Pin
        ensures { result ≡ bound_told self.now }
    {
        match self {
            Tidying::Collect(collector) => collector.bound(),
            Tidying::Split(_) => Pin {
                base: RevVec::none(),
                sweep: RevVec::none(),
            },
        }
    }
}

// The kind of the next step of a splitter.
fn kind_split(stage: oak_prev::Stage) -> StepKind
    ensures { result ≡ kind_split stage }
{
    match stage {
        oak_prev::Stage::Read => StepKind::Read,
        oak_prev::Stage::Split | oak_prev::Stage::Done => StepKind::Split,
    }
}

// The kind of the next step of a collector.
fn kind_collect(stage: oak_gc::Stage) -> StepKind
    ensures { result ≡ kind_collect stage }
{
    match stage {
        oak_gc::Stage::Bound => StepKind::Bound,
        oak_gc::Stage::Read => StepKind::Read,
        oak_gc::Stage::Collect | oak_gc::Stage::Done => StepKind::Collect,
    }
}
