// The collecting automaton.
ghost use Rattle.std.specs.Prelude.{◌≡◌, ◌↔◌, [], IfOk, IsTrue, OnErr, OnOk, Option, length};
ghost use Rattle.std.specs.Option.{option_copied, option_map_or};
ghost use Rattle.jr_path.specs.declared.path.DocId.TheVariants as id;
ghost use Rattle.oak_doc.specs.declared.asks.Ask.TheVariants as ask;
ghost use Rattle.oak_doc.specs.declared.asks.RemoveOut.TheVariants as removal;
ghost use Rattle.oak_doc.specs.declared.asks.Reply.TheVariants as reply;
ghost use Rattle.oak_doc.specs.declared.document.Document.{Document};
ghost use Rattle.oak_doc.specs.declared.update.Cond.{Cond};
ghost use Rattle.oak_gc.specs.Asking.{AskForGarbage};
ghost use Rattle.oak_gc.specs.Bounding.{TakesTheLeast};
ghost use Rattle.oak_gc.specs.Bounds.{kept_pairs, root_pair};
ghost use Rattle.oak_gc.specs.Collecting.{begun, behind_node, due, fed, found_document, going_on, lowered, no_pair, on_next, removing, with_document, with_entries, with_previous_read, with_skip};
ghost use Rattle.oak_gc.specs.Left.{LeavesNoGarbage};
ghost use Rattle.oak_gc.specs.Noting.{reading_with};
ghost use Rattle.oak_gc.specs.Resting.{CollectsByTheLeast, CollectsEach};
ghost use Rattle.oak_gc.specs.declared.reading.Step.TheVariants as step;
ghost use Rattle.oak_gc.specs.Stages.{stage_of};

use crate::Stage;
use crate::bound::{least_kept, least_of, lesser_pair, no_pair, root_pair};
use crate::reading::{Noted, Reading, Step};
use jr_path::{DeepCopy, DocId, Keyed, List, Path};
use jr_rev::{Pin, RevVec};
use oak_doc::{Ask, Collected, Document, Kept, MemoryAsk, RemoveOut, Reply};
use std::alloc::{AllocError, Global};

/// Drops what is garbage of a bound, one document at a time (Oak, DocumentNodeStore: "Revision garbage collection").
/// It asks for the root, each cluster node and, last, the settings: the least of all pairs that it is told is its bound.
/// Then it asks for the node documents in store order; of each first for the previous documents that it lists, then, where
/// the document has garbage of the bound, for the update or the removal that drops just this, where its `_modCount` is the
/// number read, and for the removal of each previous document that this dropped. It keeps one document, with those that
/// it lists. It never asks for the status of an entry.
pub struct Collector {
    alloc: Global,
    // How many cluster nodes there are, from 1 on.
    clusters: u32,
    bound: Pin,
    // The document that was read last.
    reading: Reading,
    collected: Collected,
    step: Step,
}

// By hand, so that its parts are let go in one call.
impl Drop for Collector {
    fn drop(self) {
        let Collector {
            alloc: _,
            clusters: _,
            bound: _,
            reading,
            collected,
            step: _,
        } = self;
        drop(reading);
        drop(collected);
    }
}

impl Collector {
    /// Begins a collection over so many cluster nodes, whose numbers are 1 and on.
    pub fn new(alloc: Global, clusters: u32) -> Result<Collector, AllocError>
        ensures { IfOk result (λ collector. collector ≡ begun alloc clusters) }
    {
        Ok(Collector {
            alloc,
            clusters,
            bound: no_pair(),
            reading: Reading::nothing(alloc),
            collected: Collected {
                entries: 0,
                documents: 0,
                skipped: List::new(alloc),
            },
            step: Step::Root,
        })
    }

    /// The one operation that is due, or Done.
    pub fn next(&self) -> Result<Ask, AllocError>
        ensures { IfOk result (λ ask. ask ≡ due self.now) }
    {
        match &self.step {
            Step::Root => Ok(Ask::Find(DocId::Node(Path::root(self.alloc)))),
            Step::Node(k) => Ok(Ask::Memory(MemoryAsk::Pins(*k))),
            Step::Settings => Ok(Ask::Find(DocId::Settings)),
            Step::First => Ok(Ask::NextAfter(None)),
            Step::Next => Ok(Ask::NextAfter(Some(DocId::Node(self.reading.at.copy()?)))),
            Step::Listed(number) => Ok(Ask::Find(DocId::Prev(*number, self.reading.at.copy()?))),
            Step::Prune => Ok(Ask::Update(self.reading.prune_op(self.alloc, &self.bound)?)),
            Step::Remove => self.reading.removal(),
            Step::RemovePrevious(number, read) => self.reading.previous_removal(*number, *read),
            Step::Done => Ok(Ask::Done),
        }
    }

    /// Which kind of step is due.
    pub fn stage(&self) -> Stage
        ensures { result ≡ stage_of self.now }
    {
        match &self.step {
            Step::Root | Step::Node(_) | Step::Settings => Stage::Bound,
            Step::Listed(..) => Stage::Read,
            Step::Done => Stage::Done,
            _ => Stage::Collect,
        }
    }

    /// Whether nothing more is due.
    pub fn is_done(&self) -> bool
        ensures { IsTrue result ↔ (due self.now ≡ ask.Done) }
    {
        matches!(self.step, Step::Done)
    }

    /// The least of the pairs that it was told. Once it asks for documents behind the settings, this is the bound of the
    /// collection.
    pub fn bound(&self) -> Pin
        ensures { result ≡ self.now.bound }
    {
        self.bound
    }

    /// Takes the reply to what is due. A reply of another kind, and one to Done, changes nothing; nor does a refusal.
    pub fn feed(&mut self, reply: Reply) -> Result<(), AllocError>
        ensures ok { OnOk result (self.new ≡ fed self.old reply) }
        ensures err { OnErr result (self.new ≡ self.old) }
    {
        match reply {
            Reply::Found(found) => self.feed_found(found),
            Reply::Pins { head, sweep, pins } => {
                self.feed_pins(head, sweep, pins);
                Ok(())
            }
            Reply::Gone => {
                self.feed_gone();
                Ok(())
            }
            Reply::Updated(_) => {
                self.feed_updated();
                Ok(())
            }
            Reply::Unmet(_, kept) => self.feed_unmet(&kept),
            Reply::Absent => {
                self.feed_absent();
                Ok(())
            }
            Reply::Removed(out) => self.feed_removed(out),
            _ => Ok(()),
        }
    }

    /// What the collection did.
    pub fn end(self) -> Collected
        requires { due self ≡ ask.Done }
        ensures { result ≡ self.collected }
    {
        let Collector {
            alloc: _,
            clusters: _,
            bound: _,
            reading,
            collected,
            step: _,
        } = self;
        drop(reading);
        collected
    }

    // A document that was asked for, or none.
    fn feed_found(&mut self, found: Option<Document>) -> Result<(), AllocError>
        ensures ok { OnOk result (self.new ≡ fed self.old (reply.Found found)) }
        ensures err { OnErr result (self.new ≡ self.old) }
    {
        match self.step {
            Step::Root => {
                self.feed_root(found.as_ref());
                Ok(())
            }
            Step::Settings => {
                self.feed_settings(found.as_ref());
                Ok(())
            }
            Step::First | Step::Next => self.feed_next(found),
            Step::Listed(number) => self.feed_listed(number, found),
            _ => Ok(()),
        }
    }

    // The root: what it has published is the bound, which the others lower.
    fn feed_root(&mut self, root: Option<&Document>)
        ensures { self.new ≡ record self.old {
          bound = option_map_or root_pair (option_copied root.entry) no_pair;
          step = behind_node self.old 0;
        } }
    {
        self.bound = match root {
            Some(root) => root_pair(root),
            None => no_pair(),
        };
        self.step = self.behind_node(0);
    }

    // The settings: with what they keep the bound is whole.
    fn feed_settings(&mut self, settings: Option<&Document>)
        ensures { self.new ≡ record (lowered self.old
            (option_map_or kept_pairs (option_copied settings.entry) [])) { step = step.First } }
    {
        if let Some(settings) = settings {
            self.bound = least_kept(self.bound, settings);
        }
        self.step = Step::First;
    }

    // A cluster node's head and pins.
    fn feed_pins(&mut self, head: RevVec, sweep: RevVec, pins: List<Pin>)
        ensures { self.new ≡ fed self.old (reply.Pins head sweep pins) }
    {
        if let Step::Node(k) = self.step {
            let told = lesser_pair(&self.bound, &Pin { base: head, sweep });
            self.bound = least_of(told, pins.as_slice());
            self.step = self.behind_node(k);
        }
    }

    // The cluster node is recovered, and keeps nothing.
    fn feed_gone(&mut self)
        ensures { self.new ≡ fed self.old reply.Gone }
    {
        if let Step::Node(k) = self.step {
            self.step = self.behind_node(k);
        }
    }

    // What is due behind a cluster node, or behind the root.
    fn behind_node(&self, k: u32) -> Step
        ensures { result ≡ behind_node self.now k }
    {
        if k < self.clusters {
            Step::Node(k + 1)
        } else {
            Step::Settings
        }
    }

    // The next document, or none.
    fn feed_next(&mut self, found: Option<Document>) -> Result<(), AllocError>
        ensures ok { OnOk result (self.new ≡ option_map_or (found_document self.old) found
            (record self.old { step = step.Done })) }
        ensures err { OnErr result (self.new ≡ self.old) }
    {
        let Some(document) = found else {
            self.step = Step::Done;
            return Ok(());
        };
        match Noted::of(self.alloc, &self.bound, &document)? {
            Some(noted) => self.begin(document, noted),
            None => self.step = Step::Done,
        }
        Ok(())
    }

    // A node's document is found: next what it lists.
    fn begin(&mut self, document: Document, noted: Noted)
        ensures { self.new ≡ going_on (record self.old { reading = reading_with document noted }) }
    {
        let Noted {
            at,
            garbage,
            listed,
        } = noted;
        self.reading = Reading {
            at,
            document,
            garbage,
            listed,
            previous: Keyed::new(self.alloc),
        };
        self.go_on();
    }

    // A previous document that the document lists, or none.
    fn feed_listed(&mut self, number: u64, found: Option<Document>) -> Result<(), AllocError>
        ensures ok { OnOk result (self.new
            ≡ going_on (record self.old { reading = with_previous_read self.old.reading number found })) }
        ensures err { OnErr result (self.new ≡ self.old) }
    {
        self.reading.note(number, found)?;
        self.go_on();
        Ok(())
    }

    // The first of the previous documents that are left, or what becomes of the document.
    fn go_on(&mut self)
        ensures { self.new ≡ going_on self.old }
    {
        match self.reading.next_listed() {
            Some(number) => self.step = Step::Listed(number),
            None => self.step = self.reading.decided(&self.bound),
        }
    }

    // The garbage of the document is dropped: next the previous documents of which all was garbage.
    fn feed_updated(&mut self)
        ensures { (before : Option Document) → self.new ≡ fed self.old (reply.Updated before) }
    {
        if let Step::Prune = self.step {
            self.reading.keep_garbage(&self.bound);
            self.count_entries();
            self.remove_previous();
        }
    }

    // The document has another number, or the last one.
    fn feed_unmet(&mut self, kept: &Kept) -> Result<(), AllocError>
        ensures ok { OnOk result ((cond : Cond) → self.new ≡ fed self.old (reply.Unmet cond kept.now)) }
        ensures err { OnErr result (self.new ≡ self.old) }
    {
        match (self.step, kept) {
            (Step::Prune, Kept::Number(found)) => self.skip_document(*found),
            _ => Ok(()),
        }
    }

    // The document is gone.
    fn feed_absent(&mut self)
        ensures { self.new ≡ fed self.old reply.Absent }
    {
        if let Step::Prune = self.step {
            self.step = Step::Next;
        }
    }

    // A removal was answered.
    fn feed_removed(&mut self, out: RemoveOut) -> Result<(), AllocError>
        ensures ok { OnOk result (self.new ≡ fed self.old (reply.Removed out)) }
        ensures err { OnErr result (self.new ≡ self.old) }
    {
        match self.step {
            Step::Remove => self.feed_document_removed(out),
            Step::RemovePrevious(number, read) => self.feed_previous_removed(number, read, out),
            _ => Ok(()),
        }
    }

    // The removal of the document was answered.
    fn feed_document_removed(&mut self, out: RemoveOut) -> Result<(), AllocError>
        requires { self.old.step ≡ step.Remove }
        ensures ok { OnOk result (self.new ≡ fed self.old (reply.Removed out)) }
        ensures err { OnErr result (self.new ≡ self.old) }
    {
        match out {
            RemoveOut::Removed => {
                self.count_document();
                self.remove_previous();
                Ok(())
            }
            RemoveOut::Changed(found) => self.skip_document(found),
            RemoveOut::Absent => {
                self.step = Step::Next;
                Ok(())
            }
        }
    }

    // The removal of a previous document was answered.
    fn feed_previous_removed(
        &mut self,
        number: u64,
        read: u64,
        out: RemoveOut,
    ) -> Result<(), AllocError>
        requires { self.old.step ≡ step.RemovePrevious number read }
        ensures ok { OnOk result (self.new ≡ fed self.old (reply.Removed out)) }
        ensures err { OnErr result (self.new ≡ self.old) }
    {
        match out {
            RemoveOut::Removed => self.count_document(),
            RemoveOut::Changed(found) => self.skip_previous(number, read, found)?,
            RemoveOut::Absent => {}
        }
        self.remove_previous();
        Ok(())
    }

    // Next the removal of the previous document that was split off last, or the next document.
    fn remove_previous(&mut self)
        ensures { self.new ≡ removing self.old }
    {
        self.step = match self.reading.next_previous() {
            Some((number, read)) => Step::RemovePrevious(number, read),
            None => Step::Next,
        };
    }

    // The garbage entries were dropped.
    fn count_entries(&mut self)
        ensures { self.new ≡ with_entries self.old (length self.old.reading.garbage) }
    {
        let count = self.reading.garbage.len() as u64;
        self.collected.entries = self.collected.entries.saturating_add(count);
    }

    // A document was removed.
    fn count_document(&mut self)
        ensures { self.new ≡ with_document self.old }
    {
        self.collected.documents = self.collected.documents.saturating_add(1);
    }

    // The document is passed over, with the numbers read and found.
    fn skip_document(&mut self, found: u64) -> Result<(), AllocError>
        ensures ok { OnOk result (self.new ≡ on_next (with_skip self.old self.old.reading.document.id
            self.old.reading.document.mod_count found)) }
        ensures err { OnErr result (self.new ≡ self.old) }
    {
        let id = self.reading.document.id.copy()?;
        let read = self.reading.document.mod_count;
        self.skip(id, read, found)?;
        self.step = Step::Next;
        Ok(())
    }

    // A previous document is passed over, with the numbers read and found.
    fn skip_previous(&mut self, number: u64, read: u64, found: u64) -> Result<(), AllocError>
        ensures ok { OnOk result (self.new
            ≡ with_skip self.old (id.Prev number self.old.reading.at) read found) }
        ensures err { OnErr result (self.new ≡ self.old) }
    {
        let id = DocId::Prev(number, self.reading.at.copy()?);
        self.skip(id, read, found)
    }

    fn skip(&mut self, id: DocId, read: u64, found: u64) -> Result<(), AllocError>
        ensures ok { OnOk result (self.new ≡ with_skip self.old id read found) }
        ensures err { OnErr result (self.new ≡ self.old) }
    {
        self.collected.skipped.push((id, read, found))
    }
}

/// Fed with what the root, each cluster node and the settings tell, a collector has as its bound the least of all pairs in
/// it; a cluster node that is recovered is left out.
pub fn collectors_take_the_least()
    ensures { TakesTheLeast }
{}

/// Whatever it is fed, a collector asks for the removal of a document only where all of it is garbage of its bound, and
/// for an update only where there is garbage, and then for the one that drops just this.
pub fn collectors_ask_for_garbage()
    ensures { AskForGarbage }
{}

/// In a store in which nobody else writes, a collector that has its bound goes over the documents in store order, drops of
/// each what is garbage of the bound, counts just what the store dropped, and ends; so does one that takes as its bound the
/// least of what the root, the cluster nodes and the settings tell.
pub fn collectors_collect_each_document()
    ensures each { CollectsEach }
    ensures least { CollectsByTheLeast }
{}

/// The update that drops the garbage of a document leaves no entry there that is garbage of that bound.
pub fn updates_leave_no_garbage()
    ensures { LeavesNoGarbage }
{}
