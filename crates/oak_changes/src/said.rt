// The changes that documents tell, and the commits that made them.
ghost use Rattle.std.specs.Prelude.{◌≡◌, ◌∷◌, ◌++◌, [], List as Seq, IfOk, OnErr, OnOk, map};
ghost use Rattle.std.specs.BTreeMap.{insert_entry};
ghost use Rattle.std.specs.List.{flat_map};
ghost use Rattle.std.specs.Map.{keys_of, values_of};
ghost use Rattle.std.specs.Map.Iter.{deref};
ghost use Rattle.oak_read.specs.Meaning.{documents_in};
ghost use Rattle.oak_read.specs.Shown.{with_previous};
ghost use Rattle.jr_rev.specs.Revisions.{revision_cmp};
ghost use Rattle.jr_tree.specs.Edits.{item_cmp};
ghost use Rattle.oak_changes.specs.declared.said.Said.{Said};
ghost use Rattle.oak_changes.specs.Saying.{changes_at, grouped, item_said, new_said, node_said, path_said, property_said, said_of, with_said};

use crate::states::{is_there, node_states, property_states, was_there};
use jr_path::{DeepCopy, DocId, Item, Keyed, List, Name, Path};
use jr_rev::{Pin, RevVec, Revision};
use jr_tree::{CommitChanges, ItemChange};
use oak_doc::Document;
use oak_read::documents_at;
use std::alloc::{AllocError, Global};

// The change of an item by the commit of a revision.
pub(crate) struct Said {
    pub(crate) revision: Revision,
    pub(crate) change: ItemChange,
}

// By hand, so that its parts are let go in one call.
impl Drop for Said {
    fn drop(self) {
        let Said {
            revision: _,
            change,
        } = self;
        drop(change);
    }
}

// What the document of a path and the previous documents that it lists tell of the commits that the pin's base sees and
// the vector doesn't.
pub(crate) fn path_said(
    alloc: Global,
    documents: &Keyed<DocId, Document>,
    from: &RevVec,
    pin: &Pin,
    path: &Path,
    document: &Document,
) -> Result<List<Said>, AllocError>
    ensures { IfOk result (λ said. said ≡ path_said (documents_in documents.now) pin.now.sweep from.now pin.now.base
        path.now (with_previous (documents_in documents.now) path.now document.now)) }
{
    let all = documents_at(alloc, documents, path, document)?;
    let mut said = List::new(alloc);
    add_node(alloc, documents, from, pin, path, &all, &mut said)?;
    add_properties(alloc, documents, from, pin, path, &all, &mut said)?;
    Ok(said)
}

// Adds the changes of the node at a path.
fn add_node(
    alloc: Global,
    documents: &Keyed<DocId, Document>,
    from: &RevVec,
    pin: &Pin,
    path: &Path,
    all: &[&Document],
    said: &mut List<Said>,
) -> Result<(), AllocError>
    ensures { OnOk result (said.new ≡ said.old ++ node_said (documents_in documents.now)
        pin.now.sweep from.now pin.now.base path.now (map deref all.now)) }
{
    let states = node_states(alloc, documents, pin, all)?;
    let item = Item {
        path: path.copy()?,
        name: None,
    };
    add_changes(from, &item, states.as_slice(), said)
}

// Adds the changes of the properties of the node at a path.
fn add_properties(
    alloc: Global,
    documents: &Keyed<DocId, Document>,
    from: &RevVec,
    pin: &Pin,
    path: &Path,
    all: &[&Document],
    said: &mut List<Said>,
) -> Result<(), AllocError>
    ensures { OnOk result (said.new ≡ said.old ++ flat_map (property_said (documents_in documents.now)
        pin.now.sweep from.now pin.now.base path.now (map deref all.now))
        (flat_map (λ d. keys_of d.props) (map deref all.now))) }
{
    for document in all {
        add_properties_in(alloc, documents, from, pin, path, all, document, said)?;
    }
    Ok(())
}

// Adds the changes of those that a document has names of.
fn add_properties_in(
    alloc: Global,
    documents: &Keyed<DocId, Document>,
    from: &RevVec,
    pin: &Pin,
    path: &Path,
    all: &[&Document],
    document: &Document,
    said: &mut List<Said>,
) -> Result<(), AllocError>
    ensures { OnOk result (said.new ≡ said.old ++ flat_map (property_said (documents_in documents.now)
        pin.now.sweep from.now pin.now.base path.now (map deref all.now)) (keys_of document.now.props)) }
{
    for (name, _) in document.props.iter() {
        add_property(alloc, documents, from, pin, path, all, name, said)?;
    }
    Ok(())
}

// Adds the changes of a property of the node at a path.
fn add_property(
    alloc: Global,
    documents: &Keyed<DocId, Document>,
    from: &RevVec,
    pin: &Pin,
    path: &Path,
    all: &[&Document],
    name: &Name,
    said: &mut List<Said>,
) -> Result<(), AllocError>
    ensures { OnOk result (said.new ≡ said.old ++ property_said (documents_in documents.now)
        pin.now.sweep from.now pin.now.base path.now (map deref all.now) name.now) }
{
    let states = property_states(alloc, documents, pin, all, name)?;
    let item = property_item(path, name)?;
    add_changes(from, &item, states.as_slice(), said)
}

fn property_item(path: &Path, name: &Name) -> Result<Item, AllocError>
    ensures { IfOk result (λ item. item ≡ record { path = path.now; name = Some name.now }) }
{
    Ok(Item {
        path: path.copy()?,
        name: Some(name.copy()?),
    })
}

// Adds the changes of an item by the commits that the vector doesn't see.
fn add_changes(
    from: &RevVec,
    item: &Item,
    states: &[(Revision, bool)],
    said: &mut List<Said>,
) -> Result<(), AllocError>
    ensures { OnOk result (said.new ≡ said.old ++ item_said from.now item.now states.now) }
{
    for state in states {
        add_new(from, item, states, state, said)?;
    }
    Ok(())
}

// Adds the change of an item by the commit of a state's revision, where the vector doesn't see that.
fn add_new(
    from: &RevVec,
    item: &Item,
    states: &[(Revision, bool)],
    state: &(Revision, bool),
    said: &mut List<Said>,
) -> Result<(), AllocError>
    ensures { OnOk result (said.new ≡ said.old ++ new_said from.now item.now states.now state.now.0) }
{
    if from.sees(state.0) {
        return Ok(());
    }
    add_change(from, item, states, state.0, said)
}

// Adds the change of an item by the commit of a revision.
fn add_change(
    from: &RevVec,
    item: &Item,
    states: &[(Revision, bool)],
    r: Revision,
    said: &mut List<Said>,
) -> Result<(), AllocError>
    ensures { OnOk result (said.new ≡ said.old ++ said_of from.now item.now states.now r ∷ []) }
{
    said.push(Said {
        revision: r,
        change: ItemChange {
            item: item.copy()?,
            before: was_there(from, states, r),
            after: is_there(states, r),
        },
    })
}

// Adds changes behind others. Where memory is refused none is added.
pub(crate) fn add_all(said: &mut List<Said>, more: List<Said>) -> Result<(), AllocError>
    ensures ok { OnOk result (said.new ≡ said.old ++ more) }
    ensures err { OnErr result (said.new ≡ said.old) }
{
    let count = said.len();
    match add_each(said, more) {
        Ok(()) => Ok(()),
        Err(error) => {
            said.inner_mut().truncate(count);
            Err(error)
        }
    }
}

// Adds changes behind others, as many as memory is given for.
fn add_each(said: &mut List<Said>, more: List<Said>) -> Result<(), AllocError>
    ensures ok { OnOk result (said.new ≡ said.old ++ more) }
    ensures front { (some : Seq Said) × (said.new ≡ said.old ++ some) }
{
    for one in more.into_inner() {
        said.push(one)?;
    }
    Ok(())
}

// The commits that made some changes, in ascending order, each with its own in the order of their items.
pub(crate) fn grouped(alloc: Global, said: &[Said]) -> Result<List<CommitChanges>, AllocError>
    ensures { IfOk result (λ commits. commits ≡ grouped said.now) }
{
    let mut groups = Keyed::new(alloc);
    for one in said {
        put_said(alloc, &mut groups, one)?;
    }
    listed(alloc, groups)
}

// Puts a change to those of its commit, in the place of an earlier one of its item.
fn put_said(
    alloc: Global,
    groups: &mut Keyed<Revision, Keyed<Item, ItemChange>>,
    said: &Said,
) -> Result<(), AllocError>
    ensures { OnOk result (groups.new ≡ with_said groups.old said.now) }
{
    let item = said.change.item.copy()?;
    let change = said.change.copy()?;
    put_change(alloc, groups, said.revision, item, change)?;
    Ok(())
}

fn put_change(
    alloc: Global,
    groups: &mut Keyed<Revision, Keyed<Item, ItemChange>>,
    r: Revision,
    item: Item,
    change: ItemChange,
) -> Result<(), AllocError>
    ensures { OnOk result (groups.new ≡ insert_entry revision_cmp groups.old r
        (insert_entry item_cmp (changes_at groups.old r) item change)) }
{
    if let Some(changes) = groups.inner_mut().get_mut(&r) {
        changes.put(item, change)?;
        return Ok(());
    }
    let mut changes = Keyed::new(alloc);
    changes.put(item, change)?;
    groups.put(r, changes)?;
    Ok(())
}

// The commits as a list.
fn listed(
    alloc: Global,
    groups: Keyed<Revision, Keyed<Item, ItemChange>>,
) -> Result<List<CommitChanges>, AllocError>
    ensures { IfOk result (λ commits. commits
        ≡ map (λ e. record { revision = e.0; changes = values_of e.1 }) groups) }
{
    let mut commits = List::new(alloc);
    for (revision, changes) in groups.into_inner() {
        let changes = list_of(alloc, changes)?;
        commits.push(CommitChanges { revision, changes })?;
    }
    Ok(commits)
}

// The changes of a commit as a list.
fn list_of(alloc: Global, changes: Keyed<Item, ItemChange>) -> Result<List<ItemChange>, AllocError>
    ensures { IfOk result (λ list. list ≡ values_of changes) }
{
    let mut list = List::new(alloc);
    for (_, change) in changes.into_inner() {
        list.push(change)?;
    }
    Ok(list)
}
