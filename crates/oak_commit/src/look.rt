// A look at a document as it was before its write, and at the previous documents that it listed.
ghost use Rattle.std.specs.Prelude.{◌≡◌, ◌++◌, [], IfOk, OnOk, Some, fold, map};
ghost use Rattle.jr_path.specs.Ids.{names_of};
ghost use Rattle.jr_path.specs.declared.path.DocId.TheVariants.{Prev};
ghost use Rattle.oak_commit.specs.Looking.{entries_in, looked_at, looked_before, with_all, with_found, with_properties};
ghost use Rattle.oak_doc.specs.Updates.{changed};

use crate::met::Due;
use crate::plan::Plan;
use jr_path::{DeepCopy, DocId, Keyed, List, Name, Path};
use jr_rev::{RevVec, Revision};
use jr_value::Property;
use oak_doc::{Document, PrevEntry, put_value};
use std::alloc::{AllocError, Global};
use std::mem;

// The values of a property by revision.
type Values = Keyed<Revision, Option<Property>>;

// A document as it was before its write, of which previous documents are still to be looked at.
#[derive(Drop)]
pub(crate) struct Look {
    // The document, with what moved to those that were found put back.
    pub(crate) document: Document,
    // The previous document that is asked for.
    pub(crate) first: DocId,
    // Those to ask for behind it.
    pub(crate) rest: List<DocId>,
}

// How far a look is.
#[derive(Drop)]
pub(crate) enum Looked {
    // All is looked at, with these marks to make.
    Met(List<Due>),
    // A previous document is to be asked for.
    More(Look),
}

impl Look {
    // Looks at the previous document that was asked for; one that is gone is empty.
    pub(crate) fn go_on(
        self,
        alloc: Global,
        plan: &Plan,
        base: &RevVec,
        r: Revision,
        previous: Option<Document>,
    ) -> Result<Looked, AllocError>
        ensures { IfOk result (λ looked. looked
            ≡ looked_at base.now r plan.now.marks (names_of self.first)
            (with_found self.document previous) self.rest) }
    {
        let mut look = self;
        if let Err(error) = put_found(alloc, &mut look.document, previous) {
            drop(look);
            return Err(error);
        }
        let Look {
            document,
            first,
            rest,
        } = look;
        look_at(plan, base, r, &first, document, rest)
    }
}

// Looks at the document of an id as it was before its write.
pub(crate) fn look_before(
    alloc: Global,
    plan: &Plan,
    base: &RevVec,
    r: Revision,
    id: &DocId,
    before: Option<Document>,
) -> Result<Looked, AllocError>
    ensures { IfOk result (λ looked. looked
        ≡ looked_before base.now r plan.now.marks (names_of id.now) before) }
{
    match before {
        Some(document) => look_first(alloc, plan, base, r, id, document),
        None => Ok(Looked::Met(List::new(alloc))),
    }
}

// Looks at the document of an id as it was before its write, where there was one.
fn look_first(
    alloc: Global,
    plan: &Plan,
    base: &RevVec,
    r: Revision,
    id: &DocId,
    document: Document,
) -> Result<Looked, AllocError>
    ensures { IfOk result (λ looked. looked
        ≡ looked_before base.now r plan.now.marks (names_of id.now) (Some document)) }
{
    match listed(alloc, id, document.prev.as_slice()) {
        Ok(ids) => look_at(plan, base, r, id, document, ids),
        Err(error) => {
            drop(document);
            Err(error)
        }
    }
}

// Looks at a document, where no previous one is left, for what is met in it.
fn look_at(
    plan: &Plan,
    base: &RevVec,
    r: Revision,
    id: &DocId,
    document: Document,
    ids: List<DocId>,
) -> Result<Looked, AllocError>
    ensures { IfOk result (λ looked. looked
        ≡ looked_at base.now r plan.now.marks (names_of id.now) document ids) }
{
    let mut rest = ids.into_inner();
    if !rest.is_empty() {
        let first = rest.remove(0);
        return Ok(Looked::More(Look {
            document,
            first,
            rest: List::of(rest),
        }));
    }
    drop(rest);
    let looked = meet(plan, base, r, id, &document);
    drop(document);
    looked
}

// What is met in a document with which all previous ones are put back.
fn meet(
    plan: &Plan,
    base: &RevVec,
    r: Revision,
    id: &DocId,
    document: &Document,
) -> Result<Looked, AllocError>
    ensures { IfOk result (λ looked. looked
        ≡ looked_at base.now r plan.now.marks (names_of id.now) document.now []) }
{
    Ok(Looked::Met(List::of(plan.found(base, r, id, Some(document))?)))
}

// The previous documents of a node that its document lists, in their order.
fn listed(alloc: Global, id: &DocId, entries: &[PrevEntry]) -> Result<List<DocId>, AllocError>
    ensures { IfOk result (λ ids. ids ≡ map (λ e. Prev e.number (names_of id.now)) entries.now) }
{
    match id {
        DocId::Node(path) | DocId::Prev(_, path) => listed_at(alloc, path, entries),
        DocId::Settings => listed_at(alloc, &Path::root(alloc), entries),
    }
}

fn listed_at(alloc: Global, path: &Path, entries: &[PrevEntry]) -> Result<List<DocId>, AllocError>
    ensures { IfOk result (λ ids. ids ≡ map (λ e. Prev e.number path.now) entries.now) }
{
    let mut ids = List::new(alloc);
    put_listed(&mut ids, path, entries)?;
    Ok(ids)
}

// Puts the ids of the previous documents that are listed.
fn put_listed(ids: &mut List<DocId>, path: &Path, entries: &[PrevEntry]) -> Result<(), AllocError>
    ensures { OnOk result (ids.new ≡ ids.old ++ map (λ e. Prev e.number path.now) entries.now) }
{
    for entry in entries {
        ids.push(DocId::Prev(entry.number, path.copy()?))?;
    }
    Ok(())
}

// Puts what moved to a previous document back, where that was found.
fn put_found(
    alloc: Global,
    document: &mut Document,
    previous: Option<Document>,
) -> Result<(), AllocError>
    ensures { OnOk result (document.new ≡ with_found document.old previous) }
{
    match previous {
        Some(previous) => put_back(alloc, document, previous),
        None => Ok(()),
    }
}

// Puts what moved to a previous document back.
fn put_back(alloc: Global, document: &mut Document, previous: Document) -> Result<(), AllocError>
    ensures { OnOk result (document.new ≡ fold changed document.old (entries_in previous)) }
{
    let mut previous = previous;
    let props = mem::replace(&mut previous.props, Keyed::new(alloc));
    drop(previous);
    // The names rise, so each stands once.
    let _names = props.len();
    put_properties(alloc, &mut document.props, props)?;
    Ok(())
}

// Puts the values of properties.
fn put_properties(
    alloc: Global,
    props: &mut Keyed<Name, Values>,
    moved: Keyed<Name, Values>,
) -> Result<(), AllocError>
    ensures { OnOk result (props.new ≡ with_properties props.old moved) }
{
    for (name, values) in moved.into_inner() {
        put_values(alloc, props, &name, values)?;
    }
    Ok(())
}

// Puts values of a property.
fn put_values(
    alloc: Global,
    props: &mut Keyed<Name, Values>,
    name: &Name,
    values: Values,
) -> Result<(), AllocError>
    ensures { OnOk result (props.new ≡ with_all props.old name.now values) }
{
    for (r, value) in values.into_inner() {
        put_value(alloc, props, name, r, value)?;
    }
    Ok(())
}
