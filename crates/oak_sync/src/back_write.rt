// The background write.
ghost use Rattle.std.specs.Prelude.{◌≡◌, ◌↔◌, IfOk, IsOk, IsTrue, slice_get};
ghost use Rattle.std.specs.Option.{option_copied};
ghost use Rattle.oak_doc.specs.declared.asks.Ask.TheVariants as ask;
ghost use Rattle.oak_sync.specs.Publishing.{HasWrittenNothing, back_op, due, fed, stage_of, went_on, write_stage};

use crate::{Stage, upward};
use jr_path::{DeepCopy, DocId, List, Path};
use jr_rev::Revision;
use oak_doc::{Ask, Change, Reply, UpdateOp};
use oak_node::Pending;
use std::alloc::{AllocError, Global};

/// Publishes what a cluster node's head sees of its own, one document at a time (Oak, DocumentNodeStore:
/// "Background operations", write). It sets the node's entry of `_lastRev` in the document of each changed
/// node and of all that is above it, the deepest first; the root's document is the last, and with it the other cluster
/// nodes can learn of the changes. A document that is gone is passed over, and none is made.
pub struct BackWrite {
    alloc: Global,
    upto: Revision,
    // The nodes whose documents are written, in that order.
    paths: List<Path>,
    // How many of them are done.
    written: usize,
}

// By hand, so that its parts are let go in one call.
impl Drop for BackWrite {
    fn drop(self) {
        let BackWrite {
            alloc: _,
            upto: _,
            paths,
            written: _,
        } = self;
        drop(paths);
    }
}

impl BackWrite {
    /// Begins to publish what was taken from the node's memory.
    pub fn new(alloc: Global, pending: Pending) -> Result<BackWrite, AllocError>
        ensures { IfOk result (HasWrittenNothing alloc pending) }
    {
        Ok(BackWrite {
            alloc,
            upto: pending.upto,
            paths: upward(alloc, pending.paths.as_slice())?,
            written: 0,
        })
    }

    /// The revision that it publishes.
    pub fn upto(&self) -> Revision
        ensures { result ≡ self.now.upto }
    {
        self.upto
    }

    /// The one operation that is due, or Done.
    pub fn next(&self) -> Result<Ask, AllocError>
        ensures { IfOk result (λ ask. ask ≡ due self.now) }
    {
        match self.path_due() {
            Some(path) => Ok(Ask::Update(self.update(path)?)),
            None => Ok(Ask::Done),
        }
    }

    /// Which kind of operation is due.
    pub fn stage(&self) -> Stage
        ensures { result ≡ stage_of self.now }
    {
        match self.path_due() {
            Some(path) => write_stage(path),
            None => Stage::Done,
        }
    }

    /// Whether nothing more is due.
    pub fn is_done(&self) -> bool
        ensures { IsTrue result ↔ (due self.now ≡ ask.Done) }
    {
        self.path_due().is_none()
    }

    /// Takes the reply to what is due: the document is written, or there is none. Any other reply, and one to
    /// Done, changes nothing. It takes no memory.
    pub fn feed(&mut self, reply: Reply) -> Result<(), AllocError>
        ensures fed { self.new ≡ fed self.old reply }
        ensures taken { IsOk result }
    {
        match reply {
            Reply::Updated(_) | Reply::Absent => self.go_on(),
            _ => {}
        }
        Ok(())
    }

    /// The revision that is published.
    pub fn end(self) -> Revision
        requires { due self ≡ ask.Done }
        ensures { result ≡ self.upto }
    {
        self.upto
    }

    // The node whose document is written next.
    fn path_due(&self) -> Option<&Path>
        ensures { option_copied result ≡ slice_get self.now.paths self.now.written }
    {
        self.paths.as_slice().get(self.written)
    }

    // The write of a node's document.
    fn update(&self, path: &Path) -> Result<UpdateOp, AllocError>
        ensures { IfOk result (λ op. op ≡ back_op path.now self.now.upto) }
    {
        let mut changes = List::new(self.alloc);
        changes.push(Change::LastRev(self.upto))?;
        Ok(UpdateOp {
            id: DocId::Node(path.copy()?),
            create: false,
            cond: None,
            changes,
        })
    }

    // Goes on to the next document, if there is one.
    fn go_on(&mut self)
        ensures { self.new ≡ went_on self.old }
    {
        if self.written < self.paths.len() {
            self.written += 1;
        }
    }
}

// The write of the root's document publishes.
fn write_stage(path: &Path) -> Stage
    ensures { result ≡ write_stage path.now }
{
    if path.depth() == 0 {
        Stage::Publish
    } else {
        Stage::Write
    }
}
