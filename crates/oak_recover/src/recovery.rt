// The recovering automaton.
ghost use Rattle.std.specs.Prelude.{◌≡◌, ◌==◌, ◌↔◌, IfOk, IsTrue, OnErr, OnOk, Option, Some, cond, length, slice_get};
ghost use Rattle.std.specs.Option.{option_and_then, option_copied};
ghost use Rattle.jr_rev.specs.Vectors.{entry};
ghost use Rattle.oak_doc.specs.declared.asks.Ask.TheVariants as ask;
ghost use Rattle.oak_doc.specs.declared.asks.Reply.TheVariants as reply;
ghost use Rattle.oak_doc.specs.declared.document.Document.{Document};
ghost use Rattle.jr_rev.specs.declared.revision.Revision.{Revision};
ghost use Rattle.oak_recover.specs.Recovering.{Feeds, back_stage, begun, due, recovery_end, fed_found, fed_next, fed_root, fed_status, fed_undone, fed_update, on_next_status, node_document, passed, passed_with, publish_op, published_in, stage_of, document_told, told_op, dead_id, undoing, upto_after, upto_told};
ghost use Rattle.oak_recover.specs.declared.recovery.Step.TheVariants as step;
ghost use Rattle.oak_sync.specs.Upward.{AreUpward};

use crate::Stage;
use crate::entries::After;
use crate::reading::Reading;
use jr_path::{DeepCopy, DocId, List, Path};
use jr_rev::{Pin, RevVec, Revision};
use oak_checkpoint::drop_readers;
use oak_doc::{Ask, Change, Document, MemoryAsk, Recovered, Reply, UpdateOp};
use oak_sync::upward;
use std::alloc::{AllocError, Global};

/// Recovers a stopped cluster node, for a session of another (Oak, DocumentNodeStore: "Cluster Node Metadata",
/// recovery). It reads in the root's document how far the node has published, and then each node's document, in store
/// order: each revision of the node behind that which stands there, and which neither the sweep vector of the session's
/// pin nor its commit root calls committed, is dead, and is undone there, in ascending order; each commit root is asked
/// once. Then it asks that the node's memory ends all that is in flight, and tells the documents with committed revisions
/// and all that is above them what is published now: the greatest revision that is committed, or what was published. The
/// root is told last, and that it is swept too; where it says more already, that is what is published. Last, the settings drop the readers of the node's sessions. It keeps one
/// document's revisions at a time.
pub struct Recovery {
    alloc: Global,
    // The sessions of the stopped node.
    sessions: List<u32>,
    // The sweep vector of the recovering session's pin.
    sweep: RevVec,
    // The node's revisions behind the root's `_lastRev` entry of it; before the root is read, behind its start.
    after: After,
    // The greatest revision that is known to be committed, or that entry; once the root is told, what the root says.
    upto: Revision,
    // How many undoings there were.
    undone: u64,
    // The document that was read last.
    reading: Reading,
    // The nodes whose documents have committed revisions.
    noted: List<Path>,
    // The nodes whose documents are told, in that order, and how many of them were.
    paths: List<Path>,
    written: usize,
    step: Step,
}

// By hand, so that its parts are let go in one call.
impl Drop for Recovery {
    fn drop(self) {
        let Recovery {
            alloc: _,
            sessions,
            sweep: _,
            after: _,
            upto: _,
            undone: _,
            reading,
            noted,
            paths,
            written: _,
            step: _,
        } = self;
        drop(sessions);
        drop(reading);
        drop(noted);
        drop(paths);
    }
}

// What is due.
#[derive(Clone, Copy)]
pub(crate) enum Step {
    // The root's document.
    Root,
    // The first document of all.
    First,
    // The first document behind the one that was read last.
    Next,
    // A commit root of what is in doubt there.
    Status,
    // A dead revision is undone there.
    Undo(Revision),
    // The node's memory ends what is in flight.
    Memory,
    // A document is told what is published.
    Back,
    // The settings drop readers.
    Settings,
    Done,
}

impl Recovery {
    /// Begins the recovery of a stopped cluster node, with its sessions, by a session with this pin.
    pub fn new(
        alloc: Global,
        stopped: u32,
        sessions: List<u32>,
        pin: &Pin,
    ) -> Result<Recovery, AllocError>
        ensures { IfOk result (λ recovery. recovery ≡ begun alloc stopped sessions pin.now.sweep) }
    {
        let start = Revision {
            time: 0,
            counter: 0,
            cluster: stopped,
        };
        Ok(Recovery {
            alloc,
            sessions,
            sweep: pin.sweep,
            after: After {
                cluster: stopped,
                last: start,
            },
            upto: start,
            undone: 0,
            reading: Reading::nothing(alloc),
            noted: List::new(alloc),
            paths: List::new(alloc),
            written: 0,
            step: Step::Root,
        })
    }

    /// The stopped cluster node.
    pub fn stopped(&self) -> u32
        ensures { result ≡ self.now.after.cluster }
    {
        self.after.cluster
    }

    /// The one operation that is due, or Done.
    pub fn next(&self) -> Result<Ask, AllocError>
        ensures { IfOk result (λ ask. ask ≡ due self.now) }
    {
        match self.step {
            Step::Root => Ok(Ask::Find(DocId::Node(Path::root(self.alloc)))),
            Step::First => Ok(Ask::NextAfter(None)),
            Step::Next => Ok(Ask::NextAfter(Some(self.reading.at.copy()?))),
            Step::Status => Ok(Ask::Find(self.reading.asked.copy()?)),
            Step::Undo(r) => Ok(Ask::Undo(r)),
            Step::Memory => Ok(Ask::Memory(MemoryAsk::Recover(self.after.cluster))),
            Step::Back => self.next_back(),
            Step::Settings => Ok(Ask::Update(drop_readers(self.alloc, self.sessions.as_slice())?)),
            Step::Done => Ok(Ask::Done),
        }
    }

    /// The document in which a dead revision is to be undone.
    pub fn undo_id(&self) -> &DocId
        requires { (r : Revision) × (due self.now ≡ ask.Undo r) }
        ensures { result.now ≡ dead_id self.now }
    {
        &self.reading.at
    }

    /// Which kind of step is due.
    pub fn stage(&self) -> Stage
        ensures { result ≡ stage_of self.now }
    {
        match self.step {
            Step::Root | Step::First | Step::Next => Stage::Document,
            Step::Status => Stage::Read,
            Step::Undo(_) => Stage::Undo,
            Step::Memory => Stage::Memory,
            Step::Back => back_stage(self.path_due()),
            Step::Settings => Stage::Settings,
            Step::Done => Stage::Done,
        }
    }

    /// Takes the reply to what is due. A reply of another kind, and one to Done, changes nothing; nor does a refusal.
    pub fn feed(&mut self, reply: Reply) -> Result<(), AllocError>
        ensures ok { OnOk result (Feeds self.old reply self.new) }
        ensures err { OnErr result (self.new ≡ self.old) }
    {
        match reply {
            Reply::Found(found) => self.feed_found(found),
            Reply::Undone => {
                self.feed_undone();
                Ok(())
            }
            Reply::Recovered => self.feed_recovered(),
            Reply::Updated(before) => {
                self.feed_update(before.as_ref());
                Ok(())
            }
            Reply::Absent => {
                self.feed_update(None);
                Ok(())
            }
            _ => Ok(()),
        }
    }

    /// Up to which revision the node is published, and how many undoings there were.
    pub fn end(&self) -> Recovered
        requires { due self.now ≡ ask.Done }
        ensures { result ≡ recovery_end self.now }
    {
        Recovered {
            upto: self.upto,
            undone: self.undone,
        }
    }

    // The update that tells the next document what is published.
    fn next_back(&self) -> Result<Ask, AllocError>
        requires { self.now.step ≡ step.Back }
        ensures { IfOk result (λ ask. ask ≡ due self.now) }
    {
        match self.path_due() {
            Some(path) => Ok(Ask::Update(self.update(path)?)),
            None => Ok(Ask::Done),
        }
    }

    // The node whose document is told next.
    fn path_due(&self) -> Option<&Path>
        ensures { option_copied result ≡ slice_get self.now.paths self.now.written }
    {
        self.paths.as_slice().get(self.written)
    }

    // The update of a node's document.
    fn update(&self, path: &Path) -> Result<UpdateOp, AllocError>
        ensures { IfOk result (λ op. op ≡ told_op path.now self.now.upto) }
    {
        let mut changes = List::new(self.alloc);
        changes.push(Change::LastRev(self.upto))?;
        if path.depth() == 0 {
            changes.push(Change::SweepRev(self.upto))?;
        }
        Ok(UpdateOp {
            id: DocId::Node(path.copy()?),
            create: false,
            cond: None,
            changes,
        })
    }

    // The document that was asked for, or none.
    fn feed_found(&mut self, found: Option<Document>) -> Result<(), AllocError>
        ensures ok { OnOk result (self.new ≡ fed_found self.old found) }
        ensures err { OnErr result (self.new ≡ self.old) }
    {
        match self.step {
            Step::Root => {
                self.feed_root(found.as_ref());
                Ok(())
            }
            Step::First | Step::Next => self.feed_next(found.as_ref()),
            Step::Status => {
                self.feed_status(found.as_ref());
                Ok(())
            }
            _ => Ok(()),
        }
    }

    // The root, or none: the node's start is published then.
    fn feed_root(&mut self, root: Option<&Document>)
        ensures { self.new ≡ fed_root self.old (option_copied root.entry) }
    {
        let published = self.published_in(root);
        self.after.last = published;
        self.upto = published;
        self.step = Step::First;
    }

    // The root's `_lastRev` entry of the stopped node, or its start where there is none.
    fn published_in(&self, root: Option<&Document>) -> Revision
        ensures { result ≡ published_in self.now.after.cluster (option_copied root.entry) }
    {
        match self.entry_in(root) {
            Some(entry) => entry,
            None => Revision {
                time: 0,
                counter: 0,
                cluster: self.after.cluster,
            },
        }
    }

    // The `_lastRev` entry of the stopped node.
    fn entry_in(&self, root: Option<&Document>) -> Option<Revision>
        ensures { result ≡ option_and_then (λ d. entry d.last_rev self.now.after.cluster) (option_copied root.entry) }
    {
        match root {
            Some(document) => document.last_rev.get(self.after.cluster),
            None => None,
        }
    }

    // The next node's document; where there is none, the memory is next.
    fn feed_next(&mut self, found: Option<&Document>) -> Result<(), AllocError>
        ensures ok { OnOk result (self.new ≡ fed_next self.old (node_document (option_copied found.entry))) }
        ensures err { OnErr result (self.new ≡ self.old) }
    {
        match found {
            Some(document) => self.feed_document(document),
            None => self.feed_none(),
        }
    }

    // A document, which may be none of a node.
    fn feed_document(&mut self, document: &Document) -> Result<(), AllocError>
        ensures ok { OnOk result (self.new ≡ fed_next self.old (node_document (Some document.now))) }
        ensures err { OnErr result (self.new ≡ self.old) }
    {
        match &document.id {
            DocId::Node(_) => self.feed_node(document),
            _ => self.feed_none(),
        }
    }

    // A node's document.
    fn feed_node(&mut self, document: &Document) -> Result<(), AllocError>
        ensures ok { OnOk result (self.new ≡ fed_next self.old (Some document.now)) }
        ensures err { OnErr result (self.new ≡ self.old) }
    {
        let reading = Reading::of(self.alloc, &self.sweep, self.after, document)?;
        self.pass()?;
        self.reading = reading;
        self.go_on();
        Ok(())
    }

    // There is no further node's document.
    fn feed_none(&mut self) -> Result<(), AllocError>
        ensures ok { OnOk result (self.new ≡ fed_next self.old None) }
        ensures err { OnErr result (self.new ≡ self.old) }
    {
        self.pass()?;
        self.step = Step::Memory;
        Ok(())
    }

    // The document that was read last is passed.
    fn pass(&mut self) -> Result<(), AllocError>
        ensures ok { OnOk result (self.new ≡ passed self.old) }
        ensures err { OnErr result (self.new ≡ self.old) }
    {
        match self.reading.committed {
            Some(r) => self.note(r),
            None => Ok(()),
        }
    }

    // It is noted, with its greatest committed revision.
    fn note(&mut self, r: Revision) -> Result<(), AllocError>
        ensures ok { OnOk result (self.new ≡ passed_with self.old (Some r)) }
        ensures err { OnErr result (self.new ≡ self.old) }
    {
        if let Some(path) = self.reading.at.copy()?.into_node_path() {
            self.noted.push(path)?;
        }
        if self.upto < r {
            self.upto = r;
        }
        Ok(())
    }

    // A commit root, or none.
    fn feed_status(&mut self, found: Option<&Document>)
        ensures { self.new ≡ fed_status self.old (option_copied found.entry) }
    {
        self.reading.answer_asked(found);
        self.go_on();
    }

    // The first of the commit roots that are left, or else a dead revision.
    fn go_on(&mut self)
        ensures { self.new ≡ on_next_status self.old }
    {
        match self.reading.left.inner_mut().pop_first() {
            Some((asked, _)) => {
                self.reading.asked = asked;
                self.step = Step::Status;
            }
            None => self.undo_next(),
        }
    }

    // The first dead revision, or else the next document.
    fn undo_next(&mut self)
        ensures { self.new ≡ undoing self.old }
    {
        self.step = match self.reading.doubts.inner().first_key_value() {
            Some((r, _)) => Step::Undo(*r),
            None => Step::Next,
        };
    }

    // The dead revision is undone.
    fn feed_undone(&mut self)
        ensures { Feeds self.old reply.Undone self.new }
    {
        if let Step::Undo(r) = self.step {
            self.undone = self.undone.saturating_add(1);
            self.reading.drop_doubt(r);
            self.undo_next();
        }
    }

    // The node's memory is recovered: what is committed is to be told.
    fn feed_recovered(&mut self) -> Result<(), AllocError>
        ensures ok { OnOk result (Feeds self.old reply.Recovered self.new) }
        ensures err { OnErr result (self.new ≡ self.old) }
    {
        if let Step::Memory = self.step {
            self.paths = upward(self.alloc, self.noted.as_slice())?;
            self.written = 0;
            self.step = Step::Back;
        }
        Ok(())
    }

    // An update is made of the document that was there before, or there was none.
    fn feed_update(&mut self, before: Option<&Document>)
        ensures { self.new ≡ fed_update self.old (option_copied before.entry) }
    {
        match self.step {
            Step::Back => self.tell(before),
            Step::Settings => self.step = Step::Done,
            _ => {}
        }
    }

    // The next document is told, or the settings drop readers.
    fn tell(&mut self, before: Option<&Document>)
        requires { self.old.step ≡ step.Back }
        ensures { self.new ≡ fed_update self.old (option_copied before.entry) }
    {
        if self.written < self.paths.len() {
            self.upto = self.upto_after(before);
            self.written += 1;
            self.step = if self.written < self.paths.len() {
                Step::Back
            } else {
                Step::Settings
            };
        }
    }

    // What is published, once the next document is told.
    fn upto_after(&self, before: Option<&Document>) -> Revision
        ensures { result ≡ upto_after self.now (option_copied before.entry) }
    {
        match self.path_due() {
            Some(path) => self.upto_at(path, before),
            None => self.upto,
        }
    }

    // The same, of the document of a node.
    fn upto_at(&self, path: &Path, before: Option<&Document>) -> Revision
        ensures { result ≡ cond (length path.now == 0) (upto_told self.now.after.cluster self.now.upto (option_copied before.entry)) self.now.upto }
    {
        if path.depth() == 0 {
            return self.upto_told(before);
        }
        self.upto
    }

    // What the root says, once it is told: never less than before.
    fn upto_told(&self, before: Option<&Document>) -> Revision
        ensures { result ≡ upto_told self.now.after.cluster self.now.upto (option_copied before.entry) }
    {
        match self.entry_in(before) {
            Some(entry) => { if self.upto < entry { entry } else { self.upto } }
            None => self.upto,
        }
    }
}

// Telling the root publishes.
fn back_stage(path: Option<&Path>) -> Stage
    ensures { result ≡ back_stage (option_copied path.entry) }
{
    match path {
        Some(path) => {
            if path.depth() == 0 {
                Stage::Publish
            } else {
                Stage::Write
            }
        }
        None => Stage::Done,
    }
}
