// The background read.
ghost use Rattle.std.specs.Prelude.{◌≡◌, ◌↔◌, IfOk, IsOk, IsTrue};
ghost use Rattle.std.specs.Option.{option_copied};
ghost use Rattle.oak_doc.specs.declared.asks.Ask.TheVariants as ask;
ghost use Rattle.oak_sync.specs.Learning.{begun, due, fed, stage_of};
ghost use Rattle.oak_doc.specs.declared.asks.Reply.TheVariants.{Found, Learnt};

use crate::Stage;
use jr_path::{DocId, Path};
use jr_rev::RevVec;
use oak_doc::{Ask, Document, MemoryAsk, Reply};
use std::alloc::{AllocError, Global};

/// Learns what the cluster nodes have published (Oak, DocumentNodeStore: "Background operations", read). It
/// asks for the root's document, once, and hands its `_lastRev` and its `_sweepRev`, as they stand there, to the node's
/// memory.
pub struct BackRead {
    alloc: Global,
    step: Step,
    // The `_lastRev` and the `_sweepRev` that were read; no entries before.
    last: RevVec,
    sweep: RevVec,
}

// By hand, so that its parts are let go in one call.
impl Drop for BackRead {
    fn drop(self) {
        let BackRead {
            alloc: _,
            step: _,
            last: _,
            sweep: _,
        } = self;
    }
}

// What is due.
#[derive(Clone, Copy)]
pub(crate) enum Step {
    // The root's document.
    Root,
    // That the node's memory learns what was read.
    Learn,
    Done,
}

impl BackRead {
    /// Begins a read. It takes no memory.
    pub fn new(alloc: Global) -> BackRead
        ensures { result ≡ begun alloc }
    {
        BackRead {
            alloc,
            step: Step::Root,
            last: RevVec::none(),
            sweep: RevVec::none(),
        }
    }

    /// The one operation that is due, or Done. It takes no memory.
    pub fn next(&self) -> Result<Ask, AllocError>
        ensures ask { IfOk result (λ ask. ask ≡ due self.now) }
        ensures taken { IsOk result }
    {
        match self.step {
            Step::Root => Ok(Ask::Find(DocId::Node(Path::root(self.alloc)))),
            Step::Learn => Ok(Ask::Memory(MemoryAsk::Learn(self.last, self.sweep))),
            Step::Done => Ok(Ask::Done),
        }
    }

    /// Which kind of operation is due.
    pub fn stage(&self) -> Stage
        ensures { result ≡ stage_of self.now }
    {
        match self.step {
            Step::Root => Stage::Read,
            Step::Learn => Stage::Learn,
            Step::Done => Stage::Done,
        }
    }

    /// Whether nothing more is due.
    pub fn is_done(&self) -> bool
        ensures { IsTrue result ↔ (due self.now ≡ ask.Done) }
    {
        matches!(self.step, Step::Done)
    }

    /// Takes the reply to what is due. A reply of another kind, and one to Done, changes nothing. It takes no
    /// memory.
    pub fn feed(&mut self, reply: Reply) -> Result<(), AllocError>
        ensures fed { self.new ≡ fed self.old reply }
        ensures taken { IsOk result }
    {
        match reply {
            Reply::Found(root) => self.read(root.as_ref()),
            Reply::Learnt => self.learnt(),
            _ => {}
        }
        Ok(())
    }

    /// The `_lastRev` that was read; no entries before. The memory is to learn it.
    pub fn last(&self) -> &RevVec
        ensures { result.now ≡ self.now.last }
    {
        &self.last
    }

    /// The `_sweepRev` that was read; no entries before. The memory is to learn it.
    pub fn sweep(&self) -> &RevVec
        ensures { result.now ≡ self.now.sweep }
    {
        &self.sweep
    }

    /// The `_lastRev` and the `_sweepRev` that were read.
    pub fn end(self) -> (RevVec, RevVec)
        requires { due self ≡ ask.Done }
        ensures { result ≡ (self.last, self.sweep) }
    {
        (self.last, self.sweep)
    }

    // The root's document came, or there is none, and nothing is published.
    fn read(&mut self, root: Option<&Document>)
        ensures { self.new ≡ fed self.old (Found (option_copied root.entry)) }
    {
        if !matches!(self.step, Step::Root) {
            return;
        }
        self.step = Step::Learn;
        if let Some(document) = root {
            self.last = document.last_rev;
            self.sweep = document.sweep_rev;
        }
    }

    // The memory has learned.
    fn learnt(&mut self)
        ensures { self.new ≡ fed self.old Learnt }
    {
        if matches!(self.step, Step::Learn) {
            self.step = Step::Done;
        }
    }
}
