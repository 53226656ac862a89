// The reading automaton.
ghost use Rattle.std.specs.Prelude.{◌≡◌, ◌↔◌, ◌∷◌, ◌++◌, [], IfOk, IsTrue, OnErr, OnOk, Some, codes, false, is_some, option_to_list};
ghost use Rattle.std.specs.BTreeMap.{is_at};
ghost use Rattle.std.specs.Map.{lookup};
ghost use Rattle.jr_path.specs.declared.path.DocId.TheVariants.{Node as node_id};
ghost use Rattle.jr_path.specs.Ids.{id_cmp};
ghost use Rattle.oak_read.specs.Meaning.{child_found, documents_in};
ghost use Rattle.oak_read.specs.Kept.{child_noted, node_read};
ghost use Rattle.oak_read.specs.Reading.{ReadsChildren, ReadsNode, child_path_in, children_reader, due, ended, fed, fed_main, fed_next, node_reader, noted, on_main, on_previous, on_roots, passed_by, settled};
ghost use Rattle.oak_doc.specs.declared.asks.Ask.TheVariants as ask;
ghost use Rattle.oak_doc.specs.declared.asks.Reply.TheVariants.{Found};
ghost use Rattle.oak_read.specs.declared.reader.Step.TheVariants.{Done};

use crate::children::{child_at, is_child};
use crate::node::find_node;
use crate::wanted::{Left, previous_wanted, roots_wanted};
use jr_path::{DeepCopy, DocId, Keyed, List, Name, Path};
use jr_rev::{Pin, Revision};
use jr_tree::Node;
use oak_doc::{Ask, Document, Reply};
use std::alloc::{AllocError, Global};
use std::mem;

/// What a reader gives.
#[derive(Drop)]
pub enum ReadOut {
    /// The node; None where there is none.
    Node(Option<Node>),
    /// The names of the children, in ascending order, each with the revision that added it.
    Children(List<(Name, Option<Revision>)>),
}

/// Reads a node, or the children of a node, one document at a time (Oak, DocumentNodeStore:
/// "Reading"). It asks for the node's document, for the previous documents that it lists, and for the
/// commit roots that tell of entries which the sweep vector doesn't see; each once where it is there.
/// For children it does so for each document one name below the path, one after another in store order.
pub struct Reader {
    alloc: Global,
    pin: Pin,
    // The path whose children are read; None where a node is read.
    parent: Option<Path>,
    // The path of the node that is read, or was read last.
    at: Path,
    // The documents that were found.
    known: Keyed<DocId, Document>,
    // The children that are found so far.
    names: List<(Name, Option<Revision>)>,
    step: Step,
}

// By hand, so that its parts are let go in one call.
impl Drop for Reader {
    fn drop(self) {
        let Reader {
            alloc: _,
            pin: _,
            parent,
            at,
            known,
            names,
            step,
        } = self;
        drop(parent);
        drop(at);
        drop(known);
        drop(names);
        drop(step);
    }
}

// What is due.
#[derive(Drop)]
pub(crate) enum Step {
    // The document of the node.
    Main,
    // The first document behind that of the node.
    Next,
    // Previous documents of the node.
    Previous(Left),
    // Commit roots of the node's entries.
    Roots(Left),
    Done(ReadOut),
}

impl Reader {
    /// Reads the node at a path, as it is seen at a pin.
    pub fn node(alloc: Global, path: &Path, pin: &Pin) -> Result<Reader, AllocError>
        ensures { IfOk result (λ reader. reader ≡ node_reader alloc pin.now path.now) }
    {
        Ok(Reader {
            alloc,
            pin: *pin,
            parent: None,
            at: path.copy()?,
            known: Keyed::new(alloc),
            names: List::new(alloc),
            step: Step::Main,
        })
    }

    /// Reads the names of the nodes below a path, as they are seen at a pin, with the revisions that added
    /// them.
    pub fn children(alloc: Global, path: &Path, pin: &Pin) -> Result<Reader, AllocError>
        ensures { IfOk result (λ reader. reader ≡ children_reader alloc pin.now path.now) }
    {
        let at = first_child(alloc, path)?;
        let parent = path.copy()?;
        Ok(Reader {
            alloc,
            pin: *pin,
            parent: Some(parent),
            at,
            known: Keyed::new(alloc),
            names: List::new(alloc),
            step: Step::Main,
        })
    }

    /// The one operation that is due, or Done.
    pub fn next(&self) -> Result<Ask, AllocError>
        ensures { IfOk result (λ ask. ask ≡ due self.now) }
    {
        match &self.step {
            Step::Main => find_node_of(&self.at),
            Step::Next => next_behind(&self.at),
            Step::Previous(left) => find_first(left),
            Step::Roots(left) => find_first(left),
            Step::Done(_) => Ok(Ask::Done),
        }
    }

    /// Whether nothing more is due.
    pub fn is_done(&self) -> bool
        ensures { IsTrue result ↔ (due self.now ≡ ask.Done) }
    {
        matches!(self.step, Step::Done(_))
    }

    /// Takes the reply to what is due. A reply of another kind, and one to Done, changes nothing; nor does
    /// a refusal.
    pub fn feed(&mut self, reply: Reply) -> Result<(), AllocError>
        ensures ok { OnOk result (self.new ≡ fed self.old reply) }
        ensures err { OnErr result (self.new ≡ self.old) }
    {
        match reply {
            Reply::Found(found) => self.feed_found(found),
            _ => Ok(()),
        }
    }

    // The document that was asked for, or none.
    fn feed_found(&mut self, found: Option<Document>) -> Result<(), AllocError>
        ensures ok { OnOk result (self.new ≡ fed self.old (Found found)) }
        ensures err { OnErr result (self.new ≡ self.old) }
    {
        match &self.step {
            Step::Main => self.feed_main(found),
            Step::Next => self.feed_next(found),
            Step::Previous(left) | Step::Roots(left) => {
                let id = left.first.copy()?;
                self.feed_left(id, found)
            }
            Step::Done(_) => Ok(()),
        }
    }

    /// Gives what was read.
    pub fn take(self) -> ReadOut
        requires { due self ≡ ask.Done }
        ensures { self.step ≡ Done result }
    {
        let mut reader = self;
        match mem::replace(&mut reader.step, Step::Main) {
            Step::Done(out) => out,
            _ => unreachable!(),
        }
    }

    // Takes the node's document.
    fn feed_main(&mut self, found: Option<Document>) -> Result<(), AllocError>
        ensures ok { OnOk result (self.new ≡ fed_main self.old found) }
        ensures err { OnErr result (self.new ≡ self.old) }
    {
        let Some(document) = found else {
            self.pass_by();
            return Ok(());
        };
        let id = DocId::Node(self.at.copy()?);
        self.note(id, document)
    }

    // Takes the document behind that of the node.
    fn feed_next(&mut self, found: Option<Document>) -> Result<(), AllocError>
        ensures ok { OnOk result (self.new ≡ fed_next self.old found) }
        ensures err { OnErr result (self.new ≡ self.old) }
    {
        match found {
            Some(document) => self.feed_behind(document),
            None => {
                self.end();
                Ok(())
            }
        }
    }

    // Takes a document behind that of the node.
    fn feed_behind(&mut self, document: Document) -> Result<(), AllocError>
        ensures ok { OnOk result (self.new ≡ fed_next self.old (Some document)) }
        ensures err { OnErr result (self.new ≡ self.old) }
    {
        match self.child_at(&document.id)? {
            Some(at) => self.note_child(at, document),
            None => {
                self.end();
                Ok(())
            }
        }
    }

    // Takes the document of a child.
    fn note_child(&mut self, at: Path, document: Document) -> Result<(), AllocError>
        ensures ok { OnOk result (self.new ≡ child_noted self.old at document) }
        ensures err { OnErr result (self.new ≡ self.old) }
    {
        let id = document.id.copy()?;
        let before = mem::replace(&mut self.at, at);
        match self.note(id, document) {
            Ok(()) => Ok(()),
            Err(error) => {
                self.at = before;
                Err(error)
            }
        }
    }

    // Takes a previous document, or a commit root.
    fn feed_left(&mut self, id: DocId, found: Option<Document>) -> Result<(), AllocError>
        ensures ok { OnOk result (self.new ≡ settled (noted self.old id found)) }
        ensures err { OnErr result (self.new ≡ self.old) }
    {
        match found {
            Some(document) => self.note(id, document),
            None => self.settle(),
        }
    }

    // The path of the node whose document it is, where that is a child.
    fn child_at(&self, id: &DocId) -> Result<Option<Path>, AllocError>
        ensures { IfOk result (λ at. at ≡ child_path_in self.now.parent id.now) }
    {
        match (&self.parent, id) {
            (Some(parent), DocId::Node(at)) => {
                if is_child(parent, at) {
                    Ok(Some(at.copy()?))
                } else {
                    Ok(None)
                }
            }
            _ => Ok(None),
        }
    }

    // There is no document of the node.
    fn pass_by(&mut self)
        ensures { self.new ≡ passed_by self.old }
    {
        self.step = match &self.parent {
            None => Step::Done(ReadOut::Node(None)),
            Some(_) => Step::Next,
        };
    }

    // There is no further child.
    fn end(&mut self)
        ensures { self.new ≡ ended self.old }
    {
        let names = mem::replace(&mut self.names, List::new(self.alloc));
        self.step = Step::Done(ReadOut::Children(names));
    }

    // Keeps a document that was found, and goes on; one of an id that is known isn't kept.
    fn note(&mut self, id: DocId, document: Document) -> Result<(), AllocError>
        ensures ok { OnOk result (self.new ≡ settled (noted self.old id (Some document))) }
        ensures err { OnErr result (self.new ≡ self.old) }
    {
        if self.known.contains(&id) {
            self.settle()
        } else {
            self.keep(&id, document)
        }
    }

    // Keeps a document of an id that isn't known, and goes on.
    fn keep(&mut self, id: &DocId, document: Document) -> Result<(), AllocError>
        requires { is_some (lookup (is_at (id_cmp id.now)) self.old.known) ≡ false }
        ensures ok { OnOk result (self.new ≡ settled (noted self.old id.now (Some document))) }
        ensures err { OnErr result (self.new ≡ self.old) }
    {
        self.known.put(id.copy()?, document)?;
        match self.settle() {
            Ok(()) => Ok(()),
            Err(error) => {
                self.known.remove(id);
                Err(error)
            }
        }
    }

    // Goes on to the next document that is due.
    fn settle(&mut self) -> Result<(), AllocError>
        ensures ok { OnOk result (self.new ≡ settled self.old) }
        ensures err { OnErr result (self.new ≡ self.old) }
    {
        match &mut self.step {
            Step::Main => self.read_previous(),
            Step::Next => self.read_previous(),
            Step::Previous(left) => {
                if left.go_on() {
                    Ok(())
                } else {
                    self.read_roots()
                }
            }
            Step::Roots(left) => {
                if left.go_on() {
                    Ok(())
                } else {
                    self.conclude()
                }
            }
            Step::Done(_) => Ok(()),
        }
    }

    // The node's document is known.
    fn read_previous(&mut self) -> Result<(), AllocError>
        ensures ok { OnOk result (self.new ≡ on_main self.old) }
        ensures err { OnErr result (self.new ≡ self.old) }
    {
        let wanted = previous_wanted(self.alloc, &self.known, &self.at)?;
        match Left::of(wanted) {
            Some(left) => {
                self.step = Step::Previous(left);
                Ok(())
            }
            None => self.read_roots(),
        }
    }

    // The previous documents are known too.
    fn read_roots(&mut self) -> Result<(), AllocError>
        ensures ok { OnOk result (self.new ≡ on_previous self.old) }
        ensures err { OnErr result (self.new ≡ self.old) }
    {
        let whole = self.parent.is_none();
        let wanted = roots_wanted(self.alloc, &self.known, &self.pin, whole, &self.at)?;
        match Left::of(wanted) {
            Some(left) => {
                self.step = Step::Roots(left);
                Ok(())
            }
            None => self.conclude(),
        }
    }

    // All that the node takes is known.
    fn conclude(&mut self) -> Result<(), AllocError>
        ensures ok { OnOk result (self.new ≡ on_roots self.old) }
        ensures err { OnErr result (self.new ≡ self.old) }
    {
        match &self.parent {
            None => self.conclude_node(),
            Some(parent) => {
                add_child(
                    self.alloc,
                    &self.known,
                    &self.pin,
                    parent,
                    &self.at,
                    &mut self.names,
                )?;
                self.step = Step::Next;
                Ok(())
            }
        }
    }

    // All that the node takes is known, and it is wanted itself.
    fn conclude_node(&mut self) -> Result<(), AllocError>
        ensures ok { OnOk result (self.new ≡ node_read self.old) }
        ensures err { OnErr result (self.new ≡ self.old) }
    {
        let node = find_node(self.alloc, &self.known, &self.pin, &self.at)?;
        self.step = Step::Done(ReadOut::Node(node));
        Ok(())
    }
}

// Adds the name of the node at the second path, where it is found and is a child of the first path's node.
fn add_child(
    alloc: Global,
    known: &Keyed<DocId, Document>,
    pin: &Pin,
    parent: &Path,
    at: &Path,
    names: &mut List<(Name, Option<Revision>)>,
) -> Result<(), AllocError>
    ensures ok { OnOk result (names.new ≡ names.old ++ option_to_list
        (child_found (documents_in known.now) pin.now.sweep pin.now.base parent.now (node_id at.now))) }
    ensures err { OnErr result (names.new ≡ names.old) }
{
    match child_at(alloc, known, pin, parent, at)? {
        Some(child) => names.push(child),
        None => Ok(()),
    }
}

// Asks for the document of the node at a path.
fn find_node_of(at: &Path) -> Result<Ask, AllocError>
    ensures { IfOk result (λ asking. asking ≡ ask.Find (node_id at.now)) }
{
    Ok(Ask::Find(DocId::Node(at.copy()?)))
}

// Asks for the document behind that of the node at a path.
fn next_behind(at: &Path) -> Result<Ask, AllocError>
    ensures { IfOk result (λ asking. asking ≡ ask.NextAfter (Some (node_id at.now))) }
{
    Ok(Ask::NextAfter(Some(DocId::Node(at.copy()?))))
}

// Asks for the first of the documents that are still to be read.
fn find_first(left: &Left) -> Result<Ask, AllocError>
    ensures { IfOk result (λ asking. asking ≡ ask.Find left.now.first) }
{
    Ok(Ask::Find(left.first.copy()?))
}

// The path of the first name that a child of a node can have.
fn first_child(alloc: Global, path: &Path) -> Result<Path, AllocError>
    ensures { IfOk result (λ first. first ≡ path.now ++ codes "!" ∷ []) }
{
    path.child(&least_name(alloc)?)
}

// The first of all names: no name begins with a space or a control character.
fn least_name(alloc: Global) -> Result<Name, AllocError>
    ensures { IfOk result (λ name. name ≡ codes "!") }
{
    Name::of(alloc, "!")
}

/// Over documents at rest, entries that are not committed among them, a reader ends, and gives the node or
/// the children that they show at its pin.
pub fn readers_end_in_what_documents_mean()
    ensures node { ReadsNode }
    ensures children { ReadsChildren }
{}
