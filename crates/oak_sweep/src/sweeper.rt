// The sweeping automaton.
ghost use Rattle.std.specs.Prelude.{◌≡◌, ◌↔◌, IfOk, IsOk, IsTrue};
ghost use Rattle.std.specs.Option.{option_copied};
ghost use Rattle.oak_doc.specs.declared.asks.Ask.TheVariants as ask;
ghost use Rattle.oak_doc.specs.declared.asks.Reply.TheVariants.{Found, Learnt};
ghost use Rattle.jr_rev.specs.Vectors.{no_entries, raised};
ghost use Rattle.oak_sweep.specs.Sweeping.{begun, due, fed, node_found, node_passed, stage_of, sweep_op, target_in, told};

use crate::Stage;
use jr_path::{DeepCopy, DocId, List, Path};
use jr_rev::{RevVec, Revision};
use oak_doc::{Ask, Change, Document, MemoryAsk, Reply, UpdateOp};
use std::alloc::{AllocError, Global};

/// Sweeps what a cluster node has published (Oak, DocumentNodeStore: "Sweep revision"). It reads in the root's
/// document how far the node has published, which is the target, passes over every node's document, one at a time in
/// store order, and then tells the root, and the node's memory, that up to the target what is found is committed.
pub struct Sweeper {
    alloc: Global,
    cluster: u32,
    // The root's `_lastRev` entry of the cluster node; before the root is read, the node's start.
    target: Revision,
    step: Step,
}

// By hand, so that its parts are let go in one call.
impl Drop for Sweeper {
    fn drop(self) {
        let Sweeper {
            alloc: _,
            cluster: _,
            target: _,
            step,
        } = self;
        drop(step);
    }
}

// What is due.
#[derive(Drop)]
pub(crate) enum Step {
    // The root's document.
    Root,
    // The first document of all.
    First,
    // The first document behind that of this node, which was the last one passed.
    Behind(Path),
    // The update of the root's document.
    Publish,
    // That the node's memory learns.
    Learn,
    Done,
}

impl Sweeper {
    /// Begins the sweep of a cluster node.
    pub fn new(alloc: Global, cluster: u32) -> Result<Sweeper, AllocError>
        ensures { IfOk result (λ sweeper. sweeper ≡ begun alloc cluster) }
    {
        Ok(Sweeper {
            alloc,
            cluster,
            target: Revision {
                time: 0,
                counter: 0,
                cluster,
            },
            step: Step::Root,
        })
    }

    /// The cluster node whose changes are swept, and whose memory learns.
    pub fn cluster(&self) -> u32
        ensures { result ≡ self.now.cluster }
    {
        self.cluster
    }

    /// The one operation that is due, or Done.
    pub fn next(&self) -> Result<Ask, AllocError>
        ensures { IfOk result (λ ask. ask ≡ due self.now) }
    {
        match &self.step {
            Step::Root => Ok(Ask::Find(DocId::Node(Path::root(self.alloc)))),
            Step::First => Ok(Ask::NextAfter(None)),
            Step::Behind(path) => Ok(Ask::NextAfter(Some(DocId::Node(path.copy()?)))),
            Step::Publish => Ok(Ask::Update(self.update()?)),
            Step::Learn => Ok(Ask::Memory(MemoryAsk::Learn(RevVec::none(), alone(self.target)))),
            Step::Done => Ok(Ask::Done),
        }
    }

    /// Which kind of operation is due.
    pub fn stage(&self) -> Stage
        ensures { result ≡ stage_of self.now }
    {
        match &self.step {
            Step::Root => Stage::Root,
            Step::First | Step::Behind(_) => Stage::Document,
            Step::Publish => Stage::Publish,
            Step::Learn => Stage::Learn,
            Step::Done => Stage::Done,
        }
    }

    /// Whether nothing more is due.
    pub fn is_done(&self) -> bool
        ensures { IsTrue result ↔ (due self.now ≡ ask.Done) }
    {
        matches!(self.step, Step::Done)
    }

    /// Takes the reply to what is due. A reply of another kind, and one to Done, changes nothing. It takes no
    /// memory.
    pub fn feed(&mut self, reply: Reply) -> Result<(), AllocError>
        ensures fed { self.new ≡ fed self.old reply }
        ensures taken { IsOk result }
    {
        match reply {
            Reply::Found(found) => self.feed_found(found),
            Reply::Updated(_) | Reply::Absent => self.tell(),
            Reply::Learnt => self.learnt(),
            _ => {}
        }
        Ok(())
    }

    /// The target: up to it, what is found of the cluster node's changes is committed.
    pub fn end(self) -> Revision
        requires { due self ≡ ask.Done }
        ensures { result ≡ self.target }
    {
        self.target
    }

    // The document that was asked for, or none.
    fn feed_found(&mut self, found: Option<Document>)
        ensures { self.new ≡ fed self.old (Found found) }
    {
        match &self.step {
            Step::Root => {
                self.target = self.target_in(found.as_ref());
                self.step = Step::First;
            }
            Step::First | Step::Behind(_) => self.pass(found),
            _ => {}
        }
    }

    // The root's `_lastRev` entry of the cluster node, or the node's start where there is none.
    fn target_in(&self, root: Option<&Document>) -> Revision
        ensures { result ≡ target_in self.now.cluster (option_copied root.entry) }
    {
        let own = match root {
            Some(document) => document.last_rev.get(self.cluster),
            None => None,
        };
        match own {
            Some(entry) => entry,
            None => Revision {
                time: 0,
                counter: 0,
                cluster: self.cluster,
            },
        }
    }

    // Passes over a node's document; behind the last one the root is told.
    fn pass(&mut self, found: Option<Document>)
        ensures { self.new ≡ node_passed self.old (node_found found) }
    {
        self.step = match node_of(found) {
            Some(path) => Step::Behind(path),
            None => Step::Publish,
        };
    }

    // The root's document is updated, or there is none.
    fn tell(&mut self)
        ensures { self.new ≡ told self.old }
    {
        if matches!(self.step, Step::Publish) {
            self.step = Step::Learn;
        }
    }

    // The memory has learned.
    fn learnt(&mut self)
        ensures { self.new ≡ fed self.old Learnt }
    {
        if matches!(self.step, Step::Learn) {
            self.step = Step::Done;
        }
    }

    // The update of the root's document.
    fn update(&self) -> Result<UpdateOp, AllocError>
        ensures { IfOk result (λ op. op ≡ sweep_op self.now.target) }
    {
        let mut changes = List::new(self.alloc);
        changes.push(Change::SweepRev(self.target))?;
        Ok(UpdateOp {
            id: DocId::Node(Path::root(self.alloc)),
            create: false,
            cond: None,
            changes,
        })
    }
}

// The path of the node whose document it is.
fn node_of(found: Option<Document>) -> Option<Path>
    ensures { result ≡ node_found found }
{
    let mut document = found?;
    std::mem::replace(&mut document.id, DocId::Settings).into_node_path()
}

// The vector with this entry alone.
fn alone(r: Revision) -> RevVec
    ensures { result ≡ raised no_entries r }
{
    let mut vector = RevVec::none();
    vector.raise(r);
    vector
}
