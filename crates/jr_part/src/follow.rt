// What is known of a tree once an edit was made of it.
ghost use Rattle.std.specs.Prelude.{◌≡◌, IsTrue, MatchResult, OnOk};
ghost use Rattle.std.specs.List.{fold};
ghost use Rattle.std.specs.FinMap.{is_sorted};
ghost use Rattle.std.specs.BTreeMap.{insert_entry};
ghost use Rattle.std.specs.Map.Iter.{deref};
ghost use Rattle.jr_path.specs.Names.{name_cmp};
ghost use Rattle.jr_tree.specs.declared.edit.Write.TheVariants as write;
ghost use Rattle.jr_tree.specs.Edits.{applied};
ghost use Rattle.jr_part.specs.Parts.{HaveRisingNames};
ghost use Rattle.jr_part.specs.Follows.{IsNameGap, IsNamePlace, absent_after, lists_after, with_begun, with_change_above, with_changed, with_listed, with_name, without_name};

use jr_path::{DeepCopy, Keyed, List, Name, Path};
use jr_rev::Revision;
use jr_tree::{Tree, Write};
use std::alloc::{AllocError, Global};
use std::cmp::Ordering;

// The names of the children of nodes, by the paths of these.
pub(crate) type Lists = Keyed<Path, List<(Name, Option<Revision>)>>;

// The root has no node where an edit left none there.
pub(crate) fn note_root(
    absent: &mut Keyed<Path, ()>,
    alloc: Global,
    tree: &Tree,
) -> Result<(), AllocError>
    ensures { OnOk result (absent.new ≡ absent_after tree.now absent.old) }
{
    let root = Path::root(alloc);
    if tree.has(&root) {
        return Ok(());
    }
    absent.put(root, ())
}

// Nodes that come begin without children, and then each child that comes or goes is named in the
// list of the node above, or no more: it costs that list, and looks at no other. A refusal leaves the
// lists half changed.
pub(crate) fn follow_lists(
    lists: &mut Lists,
    alloc: Global,
    writes: &[Write],
    by: Option<Revision>,
) -> Result<(), AllocError>
    requires { HaveRisingNames lists.old }
    ensures { OnOk result (lists.new ≡ lists_after by lists.old writes.now) }
{
    begin_lists(lists, alloc, writes)?;
    for write in writes {
        list_write(lists, write, by)?;
    }
    Ok(())
}

// Nodes that come have no children before those that come with them.
fn begin_lists(lists: &mut Lists, alloc: Global, writes: &[Write]) -> Result<(), AllocError>
    ensures { OnOk result (lists.new ≡ fold with_begun lists.old writes.now) }
{
    for write in writes {
        begin_list(lists, alloc, write)?;
    }
    Ok(())
}

fn begin_list(lists: &mut Lists, alloc: Global, write: &Write) -> Result<(), AllocError>
    ensures { OnOk result (lists.new ≡ with_begun lists.old write.now) }
{
    match write {
        Write::Here(path) => lists.put(path.copy()?, List::new(alloc)),
        Write::Gone(_) | Write::Put(..) | Write::Unset(..) => Ok(()),
    }
}

fn list_write(lists: &mut Lists, write: &Write, by: Option<Revision>) -> Result<(), AllocError>
    requires { HaveRisingNames lists.old }
    ensures { OnOk result (lists.new ≡ with_listed by lists.old write.now) }
{
    match write {
        Write::Here(path) => list_child(lists, path, by),
        Write::Gone(path) => unlist_child(lists, path),
        Write::Put(..) | Write::Unset(..) => Ok(()),
    }
}

// The name of the child at a path goes into the list of the node above.
fn list_child(lists: &mut Lists, path: &Path, by: Option<Revision>) -> Result<(), AllocError>
    requires { HaveRisingNames lists.old }
    ensures { OnOk result (lists.new ≡ with_change_above (with_name by) lists.old path.now) }
{
    match (path.last_name(), path.parent()?) {
        (Some(name), Some(above)) => put_name(lists, &above, name.copy()?, by),
        _ => Ok(()),
    }
}

fn put_name(
    lists: &mut Lists,
    path: &Path,
    name: Name,
    by: Option<Revision>,
) -> Result<(), AllocError>
    requires { HaveRisingNames lists.old }
    ensures { OnOk result (lists.new ≡ with_changed (with_name by name) lists.old path.now) }
{
    if let Some(names) = lists.inner_mut().get_mut(path) {
        insert_name(names.inner_mut(), name, by)?;
    }
    Ok(())
}

// The name of the child at a path leaves the list of the node above.
fn unlist_child(lists: &mut Lists, path: &Path) -> Result<(), AllocError>
    requires { HaveRisingNames lists.old }
    ensures { OnOk result (lists.new ≡ with_change_above without_name lists.old path.now) }
{
    match (path.last_name(), path.parent()?) {
        (Some(name), Some(above)) => drop_name(lists, &above, name),
        _ => {}
    }
    Ok(())
}

fn drop_name(lists: &mut Lists, path: &Path, name: &Name)
    requires { HaveRisingNames lists.old }
    ensures { lists.new ≡ with_changed (without_name name.now) lists.old path.now }
{
    if let Some(names) = lists.inner_mut().get_mut(path) {
        remove_name(names.inner_mut(), name);
    }
}

// Puts a name in its place, or in that of the same name.
fn insert_name(
    names: &mut Vec<(Name, Option<Revision>)>,
    name: Name,
    by: Option<Revision>,
) -> Result<(), AllocError>
    requires { IsTrue (is_sorted name_cmp names.old.items) }
    ensures { OnOk result (names.new.items ≡ with_name by name names.old.items) }
{
    match place_of(names, &name) {
        Ok(at) => names[at] = (name, by),
        Err(at) => names.insert(at, (name, by))?,
    }
    Ok(())
}

fn remove_name(names: &mut Vec<(Name, Option<Revision>)>, name: &Name)
    requires { IsTrue (is_sorted name_cmp names.old.items) }
    ensures { names.new.items ≡ without_name name.now names.old.items }
{
    if let Ok(at) = place_of(names, name) {
        names.remove(at);
    }
}

// Where a name stands, or where it would go.
fn place_of(names: &[(Name, Option<Revision>)], name: &Name) -> Result<usize, usize>
    requires { IsTrue (is_sorted name_cmp names.now) }
    ensures { MatchResult result (IsNamePlace names.now name.now) (IsNameGap names.now name.now) }
{
    names.binary_search_by(|entry| name_order(entry, name))
}

fn name_order(entry: &(Name, Option<Revision>), name: &Name) -> Ordering
    ensures { result ≡ name_cmp entry.now.0 name.now }
{
    entry.0.cmp(name)
}
