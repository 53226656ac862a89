// The names of the children of a node, with that of one child as it is now.
ghost use Rattle.std.specs.Prelude.{◌≡◌, IfOk, IfSome, IsTrue, MatchResult, None, OnOk};
ghost use Rattle.std.specs.BTreeMap.{is_at};
ghost use Rattle.std.specs.FinMap.{is_sorted};
ghost use Rattle.std.specs.Map.{lookup};
ghost use Rattle.jr_path.specs.Names.{name_cmp};
ghost use Rattle.jr_part.specs.Follows.{IsNameGap, IsNamePlace, with_name, without_name};
ghost use Rattle.jr_known.specs.Renewal.{with_child};

use jr_path::{DeepCopy, List, Name};
use jr_rev::Revision;
use std::alloc::{AllocError, Global};
use std::cmp::Ordering;

/// A child's name, with the revision that added the child.
pub(crate) type ChildName = (Name, Option<Revision>);

// The names with that of one child as it is now, or without it where it isn't there; None where
// they are so already.
pub(crate) fn renamed(
    alloc: Global,
    names: &[ChildName],
    name: &Name,
    born: Option<Option<Revision>>,
) -> Result<Option<List<ChildName>>, AllocError>
    requires { IsTrue (is_sorted name_cmp names.now) }
    ensures made { IfOk result (λ made. IfSome made (λ ns.
        ns ≡ with_child born name.now names.now)) }
    ensures same { IfOk result (λ made. made ≡ None
        → lookup (is_at (name_cmp name.now)) names.now ≡ born) }
{
    if is_named(names, name, born) {
        return Ok(None);
    }
    Ok(Some(List::of(with_child(alloc, names, name, born)?)))
}

// A child is among the names, added by that revision, or isn't where none is given.
fn is_named(names: &[ChildName], name: &Name, born: Option<Option<Revision>>) -> bool
    requires { IsTrue (is_sorted name_cmp names.now) }
    ensures { IsTrue result → lookup (is_at (name_cmp name.now)) names.now ≡ born }
{
    match place_of(names, name) {
        Ok(at) => born == Some(names[at].1),
        Err(_) => born.is_none(),
    }
}

fn with_child(
    alloc: Global,
    names: &[ChildName],
    name: &Name,
    born: Option<Option<Revision>>,
) -> Result<Vec<ChildName>, AllocError>
    requires { IsTrue (is_sorted name_cmp names.now) }
    ensures { IfOk result (λ made. made.items ≡ with_child born name.now names.now) }
{
    let mut made = copied(alloc, names)?;
    match born {
        Some(by) => insert_name(&mut made, name.copy()?, by)?,
        None => remove_name(&mut made, name),
    }
    Ok(made)
}

fn copied(alloc: Global, names: &[ChildName]) -> Result<Vec<ChildName>, AllocError>
    ensures { IfOk result (λ made. made.items ≡ names.now) }
{
    let mut made = Vec::new(alloc);
    for (name, by) in names {
        made.push((name.copy()?, *by))?;
    }
    Ok(made)
}

// Puts a name in its place, or in that of the same name.
fn insert_name(
    names: &mut Vec<ChildName>,
    name: Name,
    by: Option<Revision>,
) -> Result<(), AllocError>
    requires { IsTrue (is_sorted name_cmp names.old.items) }
    ensures { OnOk result (names.new.items ≡ with_name by name names.old.items) }
{
    match place_of(names, &name) {
        Ok(at) => names[at] = (name, by),
        Err(at) => names.insert(at, (name, by))?,
    }
    Ok(())
}

fn remove_name(names: &mut Vec<ChildName>, name: &Name)
    requires { IsTrue (is_sorted name_cmp names.old.items) }
    ensures { names.new.items ≡ without_name name.now names.old.items }
{
    if let Ok(at) = place_of(names, name) {
        names.remove(at);
    }
}

// Where a name stands, or where it would go.
fn place_of(names: &[ChildName], name: &Name) -> Result<usize, usize>
    requires { IsTrue (is_sorted name_cmp names.now) }
    ensures { MatchResult result (IsNamePlace names.now name.now) (IsNameGap names.now name.now) }
{
    names.binary_search_by(|entry| name_order(entry, name))
}

fn name_order(entry: &ChildName, name: &Name) -> Ordering
    ensures { result ≡ name_cmp entry.now.0 name.now }
{
    entry.0.cmp(name)
}
