// The vector and the tree of documents at rest.
ghost use Rattle.std.specs.Prelude.{◌≡◌, ◌≤◌, IfOk, OnOk, cond, fold};
ghost use Rattle.std.specs.List.{filter, flat_map};
ghost use Rattle.std.specs.Map.{keys_of};
ghost use Rattle.jr_rev.specs.Vectors.{raised, start};
ghost use Rattle.jr_path.specs.declared.path.DocId.TheVariants.{Node};
ghost use Rattle.oak_read.specs.Meaning.{documents_in, is_committed};
ghost use Rattle.oak_sound.specs.Meant.{committed_entries, committed_entries_in, opened_pin};
ghost use Rattle.oak_sound.specs.Meant.{opened_tree, shown_tree, swept, with_shown};

use crate::committed::{ById, is_committed};
use jr_path::{DeepCopy, DocId, Keyed, Path};
use jr_rev::{Pin, RevVec, Revision};
use jr_tree::Tree;
use oak_doc::Document;
use oak_read::find_node;
use std::alloc::{AllocError, Global};

/// What documents at rest mean as a whole.
pub struct Meaning {
    /// How far they are committed, and how far they are swept.
    pub pin: Pin,
    /// The tree that they show there.
    pub tree: Tree,
}

// By hand, so that its parts are let go in one call.
impl Drop for Meaning {
    fn drop(self) {
        let Meaning { pin: _, tree } = self;
        drop(tree);
    }
}

impl Meaning {
    /// Gives its vectors and its tree back, without memory.
    pub fn into_parts(self) -> (Pin, Tree)
        ensures pin { result.0 ≡ self.pin }
        ensures tree { result.1 ≡ self.tree }
    {
        let Meaning { pin, tree } = self;
        (pin, tree)
    }
}

/// What documents of so many cluster nodes mean as a whole: for each cluster node the greatest
/// revision of a committed entry, or its start; the sweep vector of the root's document; and the
/// tree that they show at these.
pub fn meant(alloc: Global, documents: &ById, clusters: u32) -> Result<Meaning, AllocError>
    requires { 1 ≤ clusters × clusters ≤ 8 }
    ensures pin { IfOk result (λ m. m.pin ≡ opened_pin clusters documents.now) }
    ensures tree { IfOk result (λ m. m.tree ≡ opened_tree clusters documents.now) }
{
    let sweep = swept(alloc, documents);
    let base = opened_at(alloc, documents, &sweep, clusters)?;
    let pin = Pin { base, sweep };
    let tree = shown_tree(alloc, documents, &pin)?;
    Ok(Meaning { pin, tree })
}

// The sweep vector of the root's document.
fn swept(alloc: Global, documents: &ById) -> RevVec
    ensures { result ≡ swept documents.now }
{
    match documents.get(&DocId::Node(Path::root(alloc))) {
        Some(document) => document.sweep_rev,
        None => RevVec::none(),
    }
}

// For each cluster node the greatest revision of a committed entry, or its start.
fn opened_at(
    alloc: Global,
    documents: &ById,
    sweep: &RevVec,
    clusters: u32,
) -> Result<RevVec, AllocError>
    requires { 1 ≤ clusters × clusters ≤ 8 }
    ensures { IfOk result (λ v. v
        ≡ fold raised (start clusters) (committed_entries documents.now sweep.now)) }
{
    let mut vector = RevVec::start(clusters);
    for (_, document) in documents.iter() {
        raise_by(alloc, documents, sweep, document, &mut vector)?;
    }
    Ok(vector)
}

// Raises the vector by the committed entries of a document.
fn raise_by(
    alloc: Global,
    documents: &ById,
    sweep: &RevVec,
    document: &Document,
    vector: &mut RevVec,
) -> Result<(), AllocError>
    ensures { OnOk result (vector.new
        ≡ fold raised vector.old (committed_entries_in documents.now sweep.now document.now)) }
{
    raise_by_entries(alloc, documents, sweep, document, &document.deleted, vector)?;
    raise_by_values(alloc, documents, sweep, document, vector)
}

fn raise_by_values(
    alloc: Global,
    documents: &ById,
    sweep: &RevVec,
    document: &Document,
    vector: &mut RevVec,
) -> Result<(), AllocError>
    ensures { OnOk result (vector.new ≡ fold raised vector.old
        (filter (is_committed (documents_in documents.now) sweep.now document.now)
        (flat_map (λ p. keys_of p.1) document.now.props))) }
{
    for (_, values) in document.props.iter() {
        raise_by_entries(alloc, documents, sweep, document, values, vector)?;
    }
    Ok(())
}

fn raise_by_entries<V>(
    alloc: Global,
    documents: &ById,
    sweep: &RevVec,
    document: &Document,
    entries: &Keyed<Revision, V>,
    vector: &mut RevVec,
) -> Result<(), AllocError>
    ensures { OnOk result (vector.new ≡ fold raised vector.old
        (filter (is_committed (documents_in documents.now) sweep.now document.now)
        (keys_of entries.now))) }
{
    for (r, _) in entries.iter() {
        let told = is_committed(alloc, documents, sweep, document, *r)?;
        raise_if(told, vector, *r);
    }
    Ok(())
}

// Raises the vector to a revision, if told so.
fn raise_if(told: bool, vector: &mut RevVec, r: Revision)
    ensures { vector.new ≡ cond told (raised vector.old r) vector.old }
{
    if told {
        vector.raise(r);
    }
}

// The nodes that the documents show at a pair of vectors.
fn shown_tree(alloc: Global, documents: &ById, pin: &Pin) -> Result<Tree, AllocError>
    ensures { IfOk result (λ tree. tree ≡ shown_tree documents.now pin.now.sweep pin.now.base) }
{
    let mut tree = Tree::new(alloc);
    for (id, _) in documents.iter() {
        show(alloc, documents, pin, id, &mut tree)?;
    }
    Ok(tree)
}

// Puts the node whose document it is, where one is shown.
fn show(
    alloc: Global,
    documents: &ById,
    pin: &Pin,
    id: &DocId,
    tree: &mut Tree,
) -> Result<(), AllocError>
    ensures { OnOk result (tree.new
        ≡ with_shown documents.now pin.now.sweep pin.now.base tree.old id.now) }
{
    match id {
        DocId::Node(path) => show_at(alloc, documents, pin, path, tree),
        _ => Ok(()),
    }
}

fn show_at(
    alloc: Global,
    documents: &ById,
    pin: &Pin,
    path: &Path,
    tree: &mut Tree,
) -> Result<(), AllocError>
    ensures { OnOk result (tree.new
        ≡ with_shown documents.now pin.now.sweep pin.now.base tree.old (Node path.now)) }
{
    match find_node(alloc, documents, pin, path)? {
        Some(node) => tree.insert(path.copy()?, node),
        None => Ok(()),
    }
}
