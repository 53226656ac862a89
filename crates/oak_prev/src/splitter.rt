// The splitting automaton.
ghost use Rattle.std.specs.Prelude.{◌≡◌, ◌↔◌, IfOk, IsTrue, OnErr, OnOk, Option, Some};
ghost use Rattle.jr_path.specs.declared.path.DocId.TheVariants as id;
ghost use Rattle.std.specs.Option.{option_map_or};
ghost use Rattle.oak_doc.specs.declared.asks.Ask.TheVariants as ask;
ghost use Rattle.oak_doc.specs.declared.asks.RemoveOut.{RemoveOut};
ghost use Rattle.oak_doc.specs.declared.asks.Reply.TheVariants as reply;
ghost use Rattle.oak_doc.specs.declared.asks.SplitEnd.TheVariants as end;
ghost use Rattle.oak_doc.specs.declared.document.Document.{Document};
ghost use Rattle.oak_doc.specs.declared.update.Cond.{Cond};
ghost use Rattle.oak_prev.specs.Resting.{SplitsWhatMoves};
ghost use Rattle.oak_prev.specs.Splitting.{begun, due, split_ended, fed, fed_read, fed_commit_root, on_next_root, statuses_known};
ghost use Rattle.oak_prev.specs.Stages.{stage_of};
ghost use Rattle.oak_prev.specs.declared.splitter.Step.TheVariants as step;

use crate::Stage;
use crate::reading::{Reading, roots_wanted};
use jr_path::{DeepCopy, DocId, Keyed, Path};
use jr_rev::Pin;
use oak_doc::{Ask, Document, Kept, PrevEntry, Reply, SplitEnd};
use std::alloc::{AllocError, Global};

/// Moves old entries of a node's document to a new previous document, one document at a time (Oak, DocumentNodeStore:
/// "Previous documents"): of each property the committed entries that the base of its pin sees, but the latest of them.
/// It asks for the document, for each commit root that alone tells whether an entry is committed, once, and, where something
/// moves, for the write of a previous document, where there is none of its id, and for the update of the document that
/// drops what moved and lists the previous document, where its `_modCount` is the number read. Where that is another,
/// or the document is gone, it removes the previous document again.
pub struct Splitter {
    alloc: Global,
    pin: Pin,
    path: Path,
    reading: Reading,
    // The commit root that is asked for, and those to ask for behind it.
    asked: DocId,
    left: Keyed<DocId, ()>,
    step: Step,
}

// By hand, so that its parts are let go in one call.
impl Drop for Splitter {
    fn drop(self) {
        let Splitter {
            alloc: _,
            pin: _,
            path,
            reading,
            asked,
            left,
            step: _,
        } = self;
        drop(path);
        drop(reading);
        drop(asked);
        drop(left);
    }
}

// What is due.
#[derive(Clone, Copy)]
pub(crate) enum Step {
    // The document.
    Read,
    // The commit root that is asked for.
    Root,
    // The previous document is written, which is listed so, with so many entries.
    Previous(PrevEntry, u64),
    // The document is changed.
    Main(PrevEntry, u64),
    // The previous document of a number is found again, to be removed; then it ends so.
    Find(u64, SplitEnd),
    // It is removed, where it has the `_modCount` found.
    Remove(u64, u64, SplitEnd),
    Done(SplitEnd),
}

impl Splitter {
    /// Begins the split of the document of the node at a path, as it is seen at a pin.
    pub fn new(alloc: Global, path: &Path, pin: &Pin) -> Result<Splitter, AllocError>
        ensures { IfOk result (λ splitter. splitter ≡ begun alloc pin.now path.now) }
    {
        Ok(Splitter {
            alloc,
            pin: *pin,
            path: path.copy()?,
            reading: Reading::nothing(alloc),
            asked: DocId::Settings,
            left: Keyed::new(alloc),
            step: Step::Read,
        })
    }

    /// The one operation that is due, or Done.
    pub fn next(&self) -> Result<Ask, AllocError>
        ensures { IfOk result (λ ask. ask ≡ due self.now) }
    {
        match self.step {
            Step::Read => Ok(Ask::Find(DocId::Node(self.path.copy()?))),
            Step::Root => Ok(Ask::Find(self.asked.copy()?)),
            Step::Previous(..) => Ok(Ask::Update(
                self.reading.previous_write(self.alloc, &self.pin)?,
            )),
            Step::Main(entry, _) => Ok(Ask::Update(
                self.reading.main_write(self.alloc, &self.pin, entry)?,
            )),
            Step::Find(number, _) => Ok(Ask::Find(self.previous(number)?)),
            Step::Remove(number, found, _) => Ok(Ask::RemoveIf(self.previous(number)?, found)),
            Step::Done(_) => Ok(Ask::Done),
        }
    }

    /// Which kind of step is due.
    pub fn stage(&self) -> Stage
        ensures { result ≡ stage_of self.now }
    {
        match self.step {
            Step::Root | Step::Find(..) => Stage::Read,
            Step::Done(_) => Stage::Done,
            _ => Stage::Split,
        }
    }

    /// Whether nothing more is due.
    pub fn is_done(&self) -> bool
        ensures { IsTrue result ↔ (due self.now ≡ ask.Done) }
    {
        matches!(self.step, Step::Done(_))
    }

    /// Takes the reply to what is due. A reply of another kind, and one to Done, changes nothing; nor does a refusal.
    pub fn feed(&mut self, reply: Reply) -> Result<(), AllocError>
        ensures ok { OnOk result (self.new ≡ fed self.old reply) }
        ensures err { OnErr result (self.new ≡ self.old) }
    {
        match reply {
            Reply::Found(found) => self.feed_found(found),
            Reply::Updated(_) => {
                self.feed_updated();
                Ok(())
            }
            Reply::Unmet(_, kept) => {
                self.feed_unmet(&kept);
                Ok(())
            }
            Reply::Absent => {
                self.feed_absent();
                Ok(())
            }
            Reply::Removed(_) => {
                self.feed_removed();
                Ok(())
            }
            _ => Ok(()),
        }
    }

    /// The path of its node, and how it ended.
    pub fn end(self) -> (Path, SplitEnd)
        requires { due self ≡ ask.Done }
        ensures path { result.0 ≡ self.path }
        ensures end { self.step ≡ step.Done result.1 }
    {
        let Splitter {
            alloc: _,
            pin: _,
            path,
            reading,
            asked,
            left,
            step,
        } = self;
        drop(reading);
        drop(asked);
        drop(left);
        match step {
            Step::Done(end) => (path, end),
            _ => unreachable!(),
        }
    }

    // The id of the previous document of a number.
    fn previous(&self, number: u64) -> Result<DocId, AllocError>
        ensures { IfOk result (λ previous. previous ≡ id.Prev number self.now.path) }
    {
        Ok(DocId::Prev(number, self.path.copy()?))
    }

    // The document that was asked for, or none.
    fn feed_found(&mut self, found: Option<Document>) -> Result<(), AllocError>
        ensures ok { OnOk result (self.new ≡ fed self.old (reply.Found found)) }
        ensures err { OnErr result (self.new ≡ self.old) }
    {
        match self.step {
            Step::Read => self.feed_read(found),
            Step::Root => self.feed_root(found),
            Step::Find(number, end) => {
                self.step = match found {
                    Some(document) => Step::Remove(number, document.mod_count, end),
                    None => Step::Done(end),
                };
                Ok(())
            }
            _ => Ok(()),
        }
    }

    // The document that is to be split, or none.
    fn feed_read(&mut self, found: Option<Document>) -> Result<(), AllocError>
        ensures ok { OnOk result (self.new ≡ option_map_or (fed_read self.old) found
            (split_ended self.old (end.Split 0))) }
        ensures err { OnErr result (self.new ≡ self.old) }
    {
        let Some(document) = found else {
            self.step = Step::Done(SplitEnd::Split(0));
            return Ok(());
        };
        let mut left = roots_wanted(self.alloc, &self.pin, &document)?;
        let reading = Reading {
            document,
            roots: Keyed::new(self.alloc),
        };
        match left.inner_mut().pop_first() {
            Some((asked, _)) => {
                self.asked = asked;
                self.step = Step::Root;
            }
            None => self.step = next_step(reading.listed_as(self.alloc, &self.pin)?),
        }
        self.reading = reading;
        self.left = left;
        Ok(())
    }

    // A commit root, or none.
    fn feed_root(&mut self, found: Option<Document>) -> Result<(), AllocError>
        ensures ok { OnOk result (self.new ≡ fed_commit_root self.old found) }
        ensures err { OnErr result (self.new ≡ self.old) }
    {
        match found {
            Some(document) => self.note(document),
            None => self.go_on(),
        }
    }

    // Keeps a commit root that was found, and goes on; one that is known isn't kept.
    fn note(&mut self, document: Document) -> Result<(), AllocError>
        ensures ok { OnOk result (self.new ≡ fed_commit_root self.old (Some document)) }
        ensures err { OnErr result (self.new ≡ self.old) }
    {
        if self.reading.roots.contains(&self.asked) {
            return self.go_on();
        }
        let id = self.asked.copy()?;
        self.reading.roots.put(id, document)?;
        if let Err(error) = self.go_on() {
            self.reading.roots.remove(&self.asked);
            return Err(error);
        }
        Ok(())
    }

    // The first of the commit roots that are left, or what moves.
    fn go_on(&mut self) -> Result<(), AllocError>
        ensures ok { OnOk result (self.new ≡ on_next_root self.old) }
        ensures err { OnErr result (self.new ≡ self.old) }
    {
        match self.left.inner_mut().pop_first() {
            Some((asked, _)) => {
                self.asked = asked;
                self.step = Step::Root;
                Ok(())
            }
            None => self.settle(),
        }
    }

    // Each status is known: next the previous document is written, where something moves.
    fn settle(&mut self) -> Result<(), AllocError>
        ensures ok { OnOk result (self.new ≡ statuses_known self.old) }
        ensures err { OnErr result (self.new ≡ self.old) }
    {
        self.step = next_step(self.reading.listed_as(self.alloc, &self.pin)?);
        Ok(())
    }

    // An update was made.
    fn feed_updated(&mut self)
        ensures { (before : Option Document) → self.new ≡ fed self.old (reply.Updated before) }
    {
        match self.step {
            Step::Previous(entry, count) => self.step = Step::Main(entry, count),
            Step::Main(_, count) => self.step = Step::Done(SplitEnd::Split(count)),
            _ => {}
        }
    }

    // There is a previous document of its id, or the document has another number, or the last one.
    fn feed_unmet(&mut self, kept: &Kept)
        ensures { (cond : Cond) → self.new ≡ fed self.old (reply.Unmet cond kept.now) }
    {
        match (self.step, kept) {
            (Step::Previous(..), _) => self.step = Step::Done(SplitEnd::Split(0)),
            (Step::Main(entry, _), Kept::Number(found)) => {
                let end = SplitEnd::Skipped(entry.number, *found);
                self.step = Step::Find(entry.number, end);
            }
            _ => {}
        }
    }

    // The document is gone.
    fn feed_absent(&mut self)
        ensures { self.new ≡ fed self.old reply.Absent }
    {
        if let Step::Main(entry, _) = self.step {
            self.step = Step::Find(entry.number, SplitEnd::Split(0));
        }
    }

    // The previous document was to be removed.
    fn feed_removed(&mut self)
        ensures { (out : RemoveOut) → self.new ≡ fed self.old (reply.Removed out) }
    {
        if let Step::Remove(_, _, end) = self.step {
            self.step = Step::Done(end);
        }
    }
}

// What is due once each status is known.
fn next_step(listed: Option<(PrevEntry, u64)>) -> Step
    ensures { result ≡ option_map_or (λ l. step.Previous l.0 l.1) listed (step.Done (end.Split 0)) }
{
    match listed {
        Some((entry, count)) => Step::Previous(entry, count),
        None => Step::Done(SplitEnd::Split(0)),
    }
}

/// Over documents in which nobody else writes a splitter ends with the count of what moves by their meaning, and with 0
/// where there is a previous document of its id.
pub fn splitters_move_what_is_old()
    ensures { SplitsWhatMoves }
{}
