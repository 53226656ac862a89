// The automaton that reads changes.
ghost use Rattle.std.specs.Prelude.{◌≡◌, ◌↔◌, IfOk, IsTrue, OnErr, OnOk, Some, false, is_some};
ghost use Rattle.jr_path.specs.Ids.{id_cmp};
ghost use Rattle.std.specs.BTreeMap.{is_at};
ghost use Rattle.std.specs.Map.{lookup};
ghost use Rattle.jr_path.specs.declared.path.DocId.TheVariants.{Node as node_id};
ghost use Rattle.oak_doc.specs.declared.asks.Ask.TheVariants as ask;
ghost use Rattle.oak_doc.specs.declared.asks.Reply.TheVariants.{Found};
ghost use Rattle.oak_changes.specs.Reading.{begun_at, changes_reader, due, changes_ended, fed, fed_next, noted, changes_on_main, changes_on_previous, changes_on_roots, changes_settled, told, with_document};
ghost use Rattle.oak_changes.specs.Resting.{ReadsChanges};
ghost use Rattle.oak_changes.specs.declared.changes.Step.TheVariants as step;

use crate::said::{Said, add_all, grouped, path_said};
use jr_path::{DeepCopy, DocId, Keyed, List, Path};
use jr_rev::{Pin, RevVec};
use jr_tree::CommitChanges;
use oak_doc::{Ask, Document, Reply};
use oak_read::{Left, node_document, previous_wanted, roots_wanted};
use std::alloc::{AllocError, Global};
use std::mem;

/// Reads what commits changed, those that a pin's base sees and another vector doesn't (JSR 283, section 12:
/// Observation). It asks for the node documents in store order, and of each, as a reader of the node does, for the
/// previous documents that it lists, and for the commit roots that tell of entries which the sweep vector doesn't see.
/// It keeps the documents of one node at a time.
pub struct ChangesReader {
    alloc: Global,
    // What this sees isn't told.
    from: RevVec,
    pin: Pin,
    // The path of the node that is read, or was read last.
    at: Path,
    // The documents that were found for it.
    known: Keyed<DocId, Document>,
    // The changes that are told so far.
    said: List<Said>,
    step: Step,
}

// By hand, so that its parts are let go in one call.
impl Drop for ChangesReader {
    fn drop(self) {
        let ChangesReader {
            alloc: _,
            from: _,
            pin: _,
            at,
            known,
            said,
            step,
        } = self;
        drop(at);
        drop(known);
        drop(said);
        drop(step);
    }
}

// What is due.
#[derive(Drop)]
pub(crate) enum Step {
    // The first document of all.
    First,
    // The first document behind that of the node.
    Next,
    // Previous documents of the node.
    Previous(Left),
    // Commit roots of the node's entries.
    Roots(Left),
    Done(List<CommitChanges>),
}

impl ChangesReader {
    /// Reads the changes of the commits that the pin's base sees and the vector doesn't. It takes no memory.
    pub fn new(alloc: Global, from: &RevVec, pin: &Pin) -> ChangesReader
        ensures { result ≡ changes_reader alloc from.now pin.now }
    {
        ChangesReader {
            alloc,
            from: *from,
            pin: *pin,
            at: Path::root(alloc),
            known: Keyed::new(alloc),
            said: List::new(alloc),
            step: Step::First,
        }
    }

    /// The one operation that is due, or Done.
    pub fn next(&self) -> Result<Ask, AllocError>
        ensures { IfOk result (λ ask. ask ≡ due self.now) }
    {
        match &self.step {
            Step::First => Ok(Ask::NextAfter(None)),
            Step::Next => next_behind(&self.at),
            Step::Previous(left) => find_first(left),
            Step::Roots(left) => find_first(left),
            Step::Done(_) => Ok(Ask::Done),
        }
    }

    /// Whether nothing more is due.
    pub fn is_done(&self) -> bool
        ensures { IsTrue result ↔ (due self.now ≡ ask.Done) }
    {
        matches!(self.step, Step::Done(_))
    }

    /// Takes the reply to what is due. A reply of another kind, and one to Done, changes nothing; nor does a refusal.
    pub fn feed(&mut self, reply: Reply) -> Result<(), AllocError>
        ensures ok { OnOk result (self.new ≡ fed self.old reply) }
        ensures err { OnErr result (self.new ≡ self.old) }
    {
        match reply {
            Reply::Found(found) => self.feed_found(found),
            _ => Ok(()),
        }
    }

    // The document that was asked for, or none.
    fn feed_found(&mut self, found: Option<Document>) -> Result<(), AllocError>
        ensures ok { OnOk result (self.new ≡ fed self.old (Found found)) }
        ensures err { OnErr result (self.new ≡ self.old) }
    {
        match &self.step {
            Step::First | Step::Next => self.feed_next(found),
            Step::Previous(left) | Step::Roots(left) => {
                let id = left.first.copy()?;
                self.feed_left(id, found)
            }
            Step::Done(_) => Ok(()),
        }
    }

    /// Gives the commits in ascending order, each with its changes.
    pub fn take(self) -> List<CommitChanges>
        requires { due self ≡ ask.Done }
        ensures { self.step ≡ step.Done result }
    {
        let mut reader = self;
        match mem::replace(&mut reader.step, Step::First) {
            Step::Done(commits) => commits,
            _ => unreachable!(),
        }
    }

    // The next document, or none.
    fn feed_next(&mut self, found: Option<Document>) -> Result<(), AllocError>
        ensures ok { OnOk result (self.new ≡ fed_next self.old found) }
        ensures err { OnErr result (self.new ≡ self.old) }
    {
        match found {
            Some(document) => self.feed_document(document),
            None => self.end(),
        }
    }

    // The next document: of a node, or there is no further one.
    fn feed_document(&mut self, document: Document) -> Result<(), AllocError>
        ensures ok { OnOk result (self.new ≡ with_document self.old document.id document) }
        ensures err { OnErr result (self.new ≡ self.old) }
    {
        match &document.id {
            DocId::Node(at) => {
                let at = at.copy()?;
                self.begin(at, document)
            }
            DocId::Prev(..) | DocId::Settings => self.end(),
        }
    }

    // There is no further document of a node.
    fn end(&mut self) -> Result<(), AllocError>
        ensures ok { OnOk result (self.new ≡ changes_ended self.old) }
        ensures err { OnErr result (self.new ≡ self.old) }
    {
        let commits = grouped(self.alloc, self.said.as_slice())?;
        self.said = List::new(self.alloc);
        self.step = Step::Done(commits);
        Ok(())
    }

    // Takes the document of the node at a path; those of the node before go.
    fn begin(&mut self, at: Path, document: Document) -> Result<(), AllocError>
        ensures ok { OnOk result (self.new ≡ begun_at self.old at document) }
        ensures err { OnErr result (self.new ≡ self.old) }
    {
        let mut known = Keyed::new(self.alloc);
        known.put(DocId::Node(at.copy()?), document)?;
        let before = mem::replace(&mut self.at, at);
        let known_before = mem::replace(&mut self.known, known);
        match self.read_previous() {
            Ok(()) => Ok(()),
            Err(error) => {
                self.at = before;
                self.known = known_before;
                Err(error)
            }
        }
    }

    // Takes a previous document, or a commit root.
    fn feed_left(&mut self, id: DocId, found: Option<Document>) -> Result<(), AllocError>
        ensures ok { OnOk result (self.new ≡ changes_settled (noted self.old id found)) }
        ensures err { OnErr result (self.new ≡ self.old) }
    {
        match found {
            Some(document) => self.note(id, document),
            None => self.settle(),
        }
    }

    // Keeps a document that was found, and goes on; one of an id that is known isn't kept.
    fn note(&mut self, id: DocId, document: Document) -> Result<(), AllocError>
        ensures ok { OnOk result (self.new ≡ changes_settled (noted self.old id (Some document))) }
        ensures err { OnErr result (self.new ≡ self.old) }
    {
        if self.known.contains(&id) {
            self.settle()
        } else {
            self.keep(&id, document)
        }
    }

    // Keeps a document of an id that isn't known, and goes on.
    fn keep(&mut self, id: &DocId, document: Document) -> Result<(), AllocError>
        requires { is_some (lookup (is_at (id_cmp id.now)) self.old.known) ≡ false }
        ensures ok { OnOk result (self.new ≡ changes_settled (noted self.old id.now (Some document))) }
        ensures err { OnErr result (self.new ≡ self.old) }
    {
        self.known.put(id.copy()?, document)?;
        match self.settle() {
            Ok(()) => Ok(()),
            Err(error) => {
                self.known.remove(id);
                Err(error)
            }
        }
    }

    // Goes on to the next document that is due.
    fn settle(&mut self) -> Result<(), AllocError>
        ensures ok { OnOk result (self.new ≡ changes_settled self.old) }
        ensures err { OnErr result (self.new ≡ self.old) }
    {
        match &mut self.step {
            Step::Previous(left) => {
                if left.go_on() {
                    Ok(())
                } else {
                    self.read_roots()
                }
            }
            Step::Roots(left) => {
                if left.go_on() {
                    Ok(())
                } else {
                    self.conclude()
                }
            }
            Step::First | Step::Next | Step::Done(_) => Ok(()),
        }
    }

    // The node's document is known.
    fn read_previous(&mut self) -> Result<(), AllocError>
        ensures ok { OnOk result (self.new ≡ changes_on_main self.old) }
        ensures err { OnErr result (self.new ≡ self.old) }
    {
        let wanted = previous_wanted(self.alloc, &self.known, &self.at)?;
        match Left::of(wanted) {
            Some(left) => {
                self.step = Step::Previous(left);
                Ok(())
            }
            None => self.read_roots(),
        }
    }

    // The previous documents are known too.
    fn read_roots(&mut self) -> Result<(), AllocError>
        ensures ok { OnOk result (self.new ≡ changes_on_previous self.old) }
        ensures err { OnErr result (self.new ≡ self.old) }
    {
        let wanted = roots_wanted(self.alloc, &self.known, &self.pin, true, &self.at)?;
        match Left::of(wanted) {
            Some(left) => {
                self.step = Step::Roots(left);
                Ok(())
            }
            None => self.conclude(),
        }
    }

    // All that the node takes is known.
    fn conclude(&mut self) -> Result<(), AllocError>
        ensures ok { OnOk result (self.new ≡ changes_on_roots self.old) }
        ensures err { OnErr result (self.new ≡ self.old) }
    {
        let more = self.told()?;
        add_all(&mut self.said, more)?;
        self.step = Step::Next;
        Ok(())
    }

    // What the node's documents that were found tell.
    fn told(&self) -> Result<List<Said>, AllocError>
        ensures { IfOk result (λ said. said ≡ told self.now) }
    {
        match node_document(&self.known, &self.at)? {
            Some(document) => path_said(
                self.alloc,
                &self.known,
                &self.from,
                &self.pin,
                &self.at,
                document,
            ),
            None => Ok(List::new(self.alloc)),
        }
    }
}

// Asks for the document behind that of the node at a path.
fn next_behind(at: &Path) -> Result<Ask, AllocError>
    ensures { IfOk result (λ asking. asking ≡ ask.NextAfter (Some (node_id at.now))) }
{
    Ok(Ask::NextAfter(Some(DocId::Node(at.copy()?))))
}

// Asks for the first of the documents that are still to be read.
fn find_first(left: &Left) -> Result<Ask, AllocError>
    ensures { IfOk result (λ asking. asking ≡ ask.Find left.now.first) }
{
    Ok(Ask::Find(left.first.copy()?))
}

/// Over documents at rest a reader ends, and gives what they say of the commits between the two vectors.
pub fn changes_are_read()
    ensures { ReadsChanges }
{}
