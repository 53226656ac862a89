// The node at a path.
ghost use Rattle.std.specs.Prelude.{◌≡◌, ◌++◌, Some, IfOk, OnOk, map, fold, option_to_list};
ghost use Rattle.std.specs.BTreeMap.{insert_entry};
ghost use Rattle.std.specs.List.{filter_map};
ghost use Rattle.std.specs.Map.{keys_of};
ghost use Rattle.std.specs.Map.Iter.{deref};
ghost use Rattle.std.specs.Option.{option_copied, option_flatten, option_map};
ghost use Rattle.jr_path.specs.Names.{name_cmp};
ghost use Rattle.jr_path.specs.declared.path.DocId.TheVariants.{Prev, Node as node_id};
ghost use Rattle.oak_doc.specs.Updates.{values_of_property};
ghost use Rattle.oak_read.specs.Meaning.{documents_in, entry_of, value_of, properties_in, found_node, latest};
ghost use Rattle.oak_read.specs.Shown.{counting_among, node_over, shown, with_previous, with_property};

use crate::latest::latest_with;
use jr_path::{DeepCopy, DocId, Keyed, Name, Path};
use jr_rev::{Pin, Revision};
use jr_tree::Node;
use jr_value::Property;
use oak_doc::{Document, PrevEntry};
use std::alloc::{AllocError, Global};

/// The node at a path, as documents at rest show it at a pin, with the revision that added it; None where
/// there is no node. A previous document that is gone counts as empty.
pub fn find_node(
    alloc: Global,
    documents: &Keyed<DocId, Document>,
    pin: &Pin,
    path: &Path,
) -> Result<Option<Node>, AllocError>
    ensures { IfOk result (λ node. node
        ≡ found_node (documents_in documents.now) pin.now.sweep pin.now.base path.now) }
{
    match node_document(documents, path)? {
        Some(document) => node_of(alloc, documents, pin, path, document),
        None => Ok(None),
    }
}

// The node at a path whose document this is.
fn node_of(
    alloc: Global,
    documents: &Keyed<DocId, Document>,
    pin: &Pin,
    path: &Path,
    document: &Document,
) -> Result<Option<Node>, AllocError>
    ensures { IfOk result (λ node. node ≡ node_over (documents_in documents.now)
        pin.now.sweep pin.now.base (with_previous (documents_in documents.now) path.now document.now)) }
{
    let all = documents_at(alloc, documents, path, document)?;
    node_over(alloc, documents, pin, &all)
}

// The node over its documents.
fn node_over(
    alloc: Global,
    documents: &Keyed<DocId, Document>,
    pin: &Pin,
    all: &[&Document],
) -> Result<Option<Node>, AllocError>
    ensures { IfOk result (λ node. node ≡ node_over (documents_in documents.now)
        pin.now.sweep pin.now.base (map deref all.now)) }
{
    let Some((added, false)) = deleted_at(alloc, documents, pin, all)? else {
        return Ok(None);
    };
    node_added(alloc, documents, pin, all, added)
}

// The node that a revision added, over its documents.
fn node_added(
    alloc: Global,
    documents: &Keyed<DocId, Document>,
    pin: &Pin,
    all: &[&Document],
    added: Revision,
) -> Result<Option<Node>, AllocError>
    ensures { IfOk result (λ node. node ≡ Some (record {
      props = properties_in (documents_in documents.now) pin.now.sweep pin.now.base (map deref all.now);
      born = Some added;
    })) }
{
    let props = properties_in(alloc, documents, pin, all)?;
    Ok(Some(Node {
        props,
        born: Some(added),
    }))
}

// The properties that have a value over some documents.
fn properties_in(
    alloc: Global,
    documents: &Keyed<DocId, Document>,
    pin: &Pin,
    all: &[&Document],
) -> Result<Keyed<Name, Property>, AllocError>
    ensures { IfOk result (λ found. found ≡ properties_in (documents_in documents.now)
        pin.now.sweep pin.now.base (map deref all.now)) }
{
    let mut found = Keyed::new(alloc);
    for document in all {
        add_properties(alloc, documents, pin, all, document, &mut found)?;
    }
    Ok(found)
}

// The document of an id.
pub(crate) fn document_at(documents: &Keyed<DocId, Document>, id: DocId) -> Option<&Document>
    ensures { option_copied result ≡ documents_in documents.now id }
{
    documents.get(&id)
}

/// The document of the node at a path.
pub fn node_document<'a>(
    documents: &'a Keyed<DocId, Document>,
    path: &Path,
) -> Result<Option<&'a Document>, AllocError>
    ensures { IfOk result (λ found. option_copied found
        ≡ documents_in documents.now (node_id path.now)) }
{
    let id = DocId::Node(path.copy()?);
    Ok(document_at(documents, id))
}

/// The document of a path and the previous documents that it lists and that are there.
pub fn documents_at<'a>(
    alloc: Global,
    documents: &'a Keyed<DocId, Document>,
    path: &Path,
    document: &'a Document,
) -> Result<Vec<&'a Document>, AllocError>
    ensures { IfOk result (λ all. map deref all.items
        ≡ with_previous (documents_in documents.now) path.now document.now) }
{
    let mut all = Vec::new(alloc);
    add_documents(documents, path, document, &mut all)?;
    Ok(all)
}

// Adds the document of a path and the previous documents that it lists and that are there.
fn add_documents<'a>(
    documents: &'a Keyed<DocId, Document>,
    path: &Path,
    document: &'a Document,
    all: &mut Vec<&'a Document>,
) -> Result<(), AllocError>
    ensures { OnOk result (map deref all.new.items ≡ map deref all.old.items
        ++ with_previous (documents_in documents.now) path.now document.now) }
{
    all.push(document)?;
    add_previous(documents, path, document.prev.inner(), all)
}

// Adds the listed previous documents of a path that are there.
fn add_previous<'a>(
    documents: &'a Keyed<DocId, Document>,
    path: &Path,
    listed: &[PrevEntry],
    all: &mut Vec<&'a Document>,
) -> Result<(), AllocError>
    ensures { OnOk result (map deref all.new.items ≡ map deref all.old.items
        ++ filter_map (λ e. documents_in documents.now (Prev e.number path.now)) listed.now) }
{
    for entry in listed {
        let id = DocId::Prev(entry.number, path.copy()?);
        push_found(all, document_at(documents, id))?;
    }
    Ok(())
}

// Adds a document, where one is found.
fn push_found<'a>(
    all: &mut Vec<&'a Document>,
    found: Option<&'a Document>,
) -> Result<(), AllocError>
    ensures { OnOk result (map deref all.new.items
        ≡ map deref all.old.items ++ option_to_list (option_copied found.entry)) }
{
    if let Some(document) = found {
        all.push(document)?;
    }
    Ok(())
}

// The `_deleted` that counts over some documents, with its revision.
fn deleted_at(
    alloc: Global,
    documents: &Keyed<DocId, Document>,
    pin: &Pin,
    all: &[&Document],
) -> Result<Option<(Revision, bool)>, AllocError>
    ensures { IfOk result (λ deleted. deleted ≡ entry_of (documents_in documents.now)
        pin.now.sweep pin.now.base (λ d. d.deleted) (map deref all.now)) }
{
    let mut best = None;
    for document in all {
        best = latest_with(alloc, documents, pin, document, &document.deleted, best)?;
    }
    Ok(best.map(|(r, deleted)| (r, *deleted)))
}

// The value of a property that counts over some documents.
fn property_at<'a>(
    alloc: Global,
    documents: &Keyed<DocId, Document>,
    pin: &Pin,
    all: &[&'a Document],
    name: &Name,
) -> Result<Option<&'a Property>, AllocError>
    ensures { IfOk result (λ property. option_copied property
        ≡ option_flatten (value_of (documents_in documents.now) pin.now.sweep pin.now.base
        (λ d. values_of_property d.props name.now) (map deref all.now))) }
{
    let mut best = None;
    for document in all {
        best = value_with(alloc, documents, pin, document, name, best)?;
    }
    match best {
        Some((_, Some(property))) => Ok(Some(property)),
        _ => Ok(None),
    }
}

// The latest of the best so far and the values of a property in a document that count.
fn value_with<'a>(
    alloc: Global,
    documents: &Keyed<DocId, Document>,
    pin: &Pin,
    document: &'a Document,
    name: &Name,
    best: Option<(Revision, &'a Option<Property>)>,
) -> Result<Option<(Revision, &'a Option<Property>)>, AllocError>
    ensures { IfOk result (λ next. shown next ≡ latest (option_to_list (shown best.entry)
        ++ counting_among (documents_in documents.now) pin.now.sweep pin.now.base document.now
        (values_of_property document.now.props name.now))) }
{
    match document.props.get(name) {
        Some(values) => latest_with(alloc, documents, pin, document, values, best),
        None => Ok(best),
    }
}

// Adds the properties that a document has names of, where they have a value that counts.
fn add_properties(
    alloc: Global,
    documents: &Keyed<DocId, Document>,
    pin: &Pin,
    all: &[&Document],
    document: &Document,
    found: &mut Keyed<Name, Property>,
) -> Result<(), AllocError>
    ensures { OnOk result (found.new ≡ fold
        (with_property (documents_in documents.now) pin.now.sweep pin.now.base (map deref all.now))
        found.old (keys_of document.now.props)) }
{
    for (name, _) in document.props.iter() {
        add_property(alloc, documents, pin, all, name, found)?;
    }
    Ok(())
}

// Adds the property of a name, where it has a value that counts.
fn add_property(
    alloc: Global,
    documents: &Keyed<DocId, Document>,
    pin: &Pin,
    all: &[&Document],
    name: &Name,
    found: &mut Keyed<Name, Property>,
) -> Result<(), AllocError>
    ensures { OnOk result (found.new ≡ with_property (documents_in documents.now)
        pin.now.sweep pin.now.base (map deref all.now) found.old name.now) }
{
    match property_at(alloc, documents, pin, all, name)? {
        Some(property) => put_copy(found, name, property),
        None => Ok(()),
    }
}

// Puts a copy of a property under a copy of its name.
fn put_copy(
    found: &mut Keyed<Name, Property>,
    name: &Name,
    property: &Property,
) -> Result<(), AllocError>
    ensures { OnOk result (found.new ≡ insert_entry name_cmp found.old name.now property.now) }
{
    put_named(found, name.copy()?, property)
}

// Puts a copy of a property under a name.
fn put_named(
    found: &mut Keyed<Name, Property>,
    name: Name,
    property: &Property,
) -> Result<(), AllocError>
    ensures { OnOk result (found.new ≡ insert_entry name_cmp found.old name property.now) }
{
    found.put(name, property.copy()?)
}
