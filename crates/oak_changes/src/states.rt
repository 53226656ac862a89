// Whether an item is there, revision by revision.
ghost use Rattle.std.specs.Prelude.{◌≡◌, ◌||◌, ◌∷◌, ◌++◌, [], Some, IfOk, OnOk, is_some, map, not, option_to_list};
ghost use Rattle.std.specs.Map.Iter.{deref};
ghost use Rattle.oak_doc.specs.Updates.{of_revision, values_of_property};
ghost use Rattle.oak_read.specs.Meaning.{counting, documents_in, latest};
ghost use Rattle.jr_rev.specs.Revisions.{is_before};
ghost use Rattle.jr_rev.specs.Vectors.{sees};
ghost use Rattle.oak_changes.specs.Saying.{is_there, states_before, states_of, was_there};
ghost use Rattle.std.specs.Option.{option_or};

use jr_path::{DocId, Keyed, List, Name};
use jr_rev::{Pin, RevVec, Revision};
use jr_value::Property;
use oak_doc::Document;
use oak_read::counts;
use std::alloc::{AllocError, Global};

// Of the node's entries that count over some documents, whether each leaves the node there.
pub(crate) fn node_states(
    alloc: Global,
    documents: &Keyed<DocId, Document>,
    pin: &Pin,
    all: &[&Document],
) -> Result<List<(Revision, bool)>, AllocError>
    ensures { IfOk result (λ states. states ≡ states_of (documents_in documents.now)
        pin.now.sweep pin.now.base (λ d. d.deleted) not (map deref all.now)) }
{
    let mut states = List::new(alloc);
    for document in all {
        add_deleted(alloc, documents, pin, document, &mut states)?;
    }
    Ok(states)
}

// Of a property's entries that count over some documents, whether each leaves the property there.
pub(crate) fn property_states(
    alloc: Global,
    documents: &Keyed<DocId, Document>,
    pin: &Pin,
    all: &[&Document],
    name: &Name,
) -> Result<List<(Revision, bool)>, AllocError>
    ensures { IfOk result (λ states. states ≡ states_of (documents_in documents.now)
        pin.now.sweep pin.now.base (λ d. values_of_property d.props name.now) is_some (map deref all.now)) }
{
    let mut states = List::new(alloc);
    for document in all {
        add_values_of(alloc, documents, pin, document, name, &mut states)?;
    }
    Ok(states)
}

// Adds those of the node's entries in a document.
fn add_deleted(
    alloc: Global,
    documents: &Keyed<DocId, Document>,
    pin: &Pin,
    document: &Document,
    states: &mut List<(Revision, bool)>,
) -> Result<(), AllocError>
    ensures { OnOk result (states.new ≡ states.old ++ map (λ e. (e.0, not e.1))
        (counting (documents_in documents.now) pin.now.sweep pin.now.base (λ d. d.deleted) document.now)) }
{
    for (r, gone) in document.deleted.iter() {
        add_state(alloc, documents, pin, document, *r, !*gone, states)?;
    }
    Ok(())
}

// Adds those of a property's entries in a document.
fn add_values_of(
    alloc: Global,
    documents: &Keyed<DocId, Document>,
    pin: &Pin,
    document: &Document,
    name: &Name,
    states: &mut List<(Revision, bool)>,
) -> Result<(), AllocError>
    ensures { OnOk result (states.new ≡ states.old ++ map (λ e. (e.0, is_some e.1))
        (counting (documents_in documents.now) pin.now.sweep pin.now.base
        (λ d. values_of_property d.props name.now) document.now)) }
{
    match document.props.get(name) {
        Some(values) => add_values(alloc, documents, pin, document, values, states),
        None => Ok(()),
    }
}

fn add_values(
    alloc: Global,
    documents: &Keyed<DocId, Document>,
    pin: &Pin,
    document: &Document,
    values: &Keyed<Revision, Option<Property>>,
    states: &mut List<(Revision, bool)>,
) -> Result<(), AllocError>
    ensures { OnOk result (states.new ≡ states.old ++ map (λ e. (e.0, is_some e.1))
        (counting (documents_in documents.now) pin.now.sweep pin.now.base (λ d. values.now) document.now)) }
{
    for (r, value) in values.iter() {
        add_state(alloc, documents, pin, document, *r, value.is_some(), states)?;
    }
    Ok(())
}

// Adds what an entry of a document leaves, where the entry counts.
fn add_state(
    alloc: Global,
    documents: &Keyed<DocId, Document>,
    pin: &Pin,
    document: &Document,
    r: Revision,
    there: bool,
    states: &mut List<(Revision, bool)>,
) -> Result<(), AllocError>
    ensures { OnOk result (states.new ≡ states.old ++ counting (documents_in documents.now)
        pin.now.sweep pin.now.base (λ d. (r, there) ∷ []) document.now) }
{
    if counts(alloc, documents, pin, document, r)? {
        states.push((r, there))?;
    }
    Ok(())
}

// Whether the item was there by the latest of its states that the vector sees or that are below a revision.
pub(crate) fn was_there(from: &RevVec, states: &[(Revision, bool)], r: Revision) -> bool
    ensures { result ≡ was_there from.now r states.now }
{
    let mut latest: Option<(Revision, bool)> = None;
    for state in states {
        latest = later_if(from, r, latest, state);
    }
    match latest {
        Some((_, there)) => there,
        None => false,
    }
}

// The later of the best so far and a state, where the vector sees that or it is below a revision.
fn later_if(
    from: &RevVec,
    r: Revision,
    best: Option<(Revision, bool)>,
    state: &(Revision, bool),
) -> Option<(Revision, bool)>
    ensures { result ≡ latest (option_to_list best ++ states_before from.now r (state.now ∷ [])) }
{
    let (at, there) = *state;
    if is_earlier(from, at, r) {
        Some(later_state(best, at, there))
    } else {
        best
    }
}

// Whether the vector sees the first revision, or it is below the second.
fn is_earlier(from: &RevVec, at: Revision, r: Revision) -> bool
    ensures { result ≡ (sees from.now at || is_before at r) }
{
    from.sees(at) || at < r
}

// The later of the best so far and a state; of one revision the best so far.
fn later_state(best: Option<(Revision, bool)>, at: Revision, there: bool) -> (Revision, bool)
    ensures { Some result ≡ latest (option_to_list best ++ (at, there) ∷ []) }
{
    match best {
        Some((found, kept)) => {
            if found < at {
                (at, there)
            } else {
                (found, kept)
            }
        }
        None => (at, there),
    }
}

// Whether the item is there by the first of its states that is of a revision.
pub(crate) fn is_there(states: &[(Revision, bool)], r: Revision) -> bool
    ensures { result ≡ is_there r states.now }
{
    let mut found: Option<bool> = None;
    for state in states {
        found = first_of(found, r, state);
    }
    found.unwrap_or(false)
}

// What was found, or else what a state says, where it is of a revision.
fn first_of(found: Option<bool>, r: Revision, state: &(Revision, bool)) -> Option<bool>
    ensures { result ≡ option_or found (of_revision (state.now ∷ []) r) }
{
    let (at, there) = *state;
    match found {
        Some(kept) => Some(kept),
        None => {
            if r.cmp(&at).is_eq() {
                Some(there)
            } else {
                None
            }
        }
    }
}
