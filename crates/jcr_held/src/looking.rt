// What loading has left to look at, so that each known node is looked at once. All of it may be
// forgotten, and looking at less is never wrong: what a command asks for is asked anew at the end.
ghost use Rattle.std.specs.Prelude.{◌≡◌, ◌++◌, ◌∷◌, [], IfOk, IfSome, IsFalse, IsTrue, None, OnOk, Some, is_some};
ghost use Rattle.std.specs.List.{flat_map};
ghost use Rattle.jr_path.specs.Names.{parent_of};
ghost use Rattle.jr_part.specs.Parts.{knows, list_at, lists_child};
ghost use Rattle.jr_part.specs.declared.need.Need.TheVariants as need;
ghost use Rattle.jcr_held.specs.Looking.{IsMetFirst, IsUnknownChild, IsUnknownNear, places_for};

use jcr_view::Pending;
use jr_part::{Need, Part};
use jr_path::{DeepCopy, Name, Path};
use jr_rev::Revision;
use std::alloc::{AllocError, Global};

/// What is left to be looked at.
#[derive(Drop)]
pub(crate) enum Place {
    // The node at a path.
    Node(Path),
    // The children of the node at a path, from a place in their list on, and all that is below
    // them.
    Below(Path, usize),
}

/// Leaves needs to be looked at, and nothing else.
pub(crate) fn leave_needs(
    alloc: Global,
    left: &mut Vec<Place>,
    needs: Vec<Need>,
) -> Result<(), AllocError>
    ensures { OnOk result (left.new.items ≡ flat_map places_for needs.items) }
{
    left.clear();
    for need in needs {
        leave_need(alloc, left, need)?;
    }
    Ok(())
}

fn leave_need(alloc: Global, left: &mut Vec<Place>, need: Need) -> Result<(), AllocError>
    ensures { OnOk result (left.new.items ≡ left.old.items ++ places_for need) }
{
    match need {
        Need::Node(path) => leave_place(left, Place::Node(path)),
        Need::Children(_) => Ok(()),
        Need::Subtree(path) => leave_place(left, Place::Below(path, 0)),
        Need::All => leave_place(left, Place::Below(Path::root(alloc), 0)),
    }
}

fn leave_place(left: &mut Vec<Place>, place: Place) -> Result<(), AllocError>
    ensures { OnOk result (left.new.items ≡ left.old.items ++ place ∷ []) }
{
    left.push(place)?;
    Ok(())
}

/// The next load of what is left to be looked at, of which it looks at the last first; None where
/// none is left. A subtree is left until its node and its children are known, and then the subtrees
/// of these are: each known node is looked at once. Where what is pending is kept, the touched
/// nodes are looked at, and those above them. A load looks at no more than 2^64 - 1 places; what is
/// left by then is asked for anew.
pub(crate) fn load_left(
    part: &Part,
    pending: &Pending,
    is_kept: bool,
    left: &mut Vec<Place>,
) -> Result<Option<Need>, AllocError>
    ensures { IfOk result (λ load. IfSome load (IsMetFirst part.now pending.now is_kept)) }
{
    for _ in 0..u64::MAX {
        let Some(place) = left.pop() else {
            return Ok(None);
        };
        let load = look_at(part, pending, is_kept, left, place)?;
        if load.is_some() {
            return Ok(load);
        }
    }
    Ok(None)
}

// What lacks at a place, or None where that is known or is left to be looked at.
fn look_at(
    part: &Part,
    pending: &Pending,
    is_kept: bool,
    left: &mut Vec<Place>,
    place: Place,
) -> Result<Option<Need>, AllocError>
    ensures { IfOk result (λ load. IfSome load (IsMetFirst part.now pending.now is_kept)) }
{
    match place {
        Place::Node(path) => look_at_node(part, pending, is_kept, left, path),
        Place::Below(path, next) => look_below(part, pending, is_kept, left, path, next),
    }
}

// A node is looked at where what is pending is kept and it is touched.
fn look_at_node(
    part: &Part,
    pending: &Pending,
    is_kept: bool,
    left: &mut Vec<Place>,
    path: Path,
) -> Result<Option<Need>, AllocError>
    ensures { IfOk result (λ load. IfSome load (IsMetFirst part.now pending.now is_kept)) }
{
    if !is_kept {
        return Ok(None);
    }
    if !pending.touches(&path) {
        return Ok(None);
    }
    look_near(part, left, path)
}

// The node above a path lacks, where that is the next to be looked at, or the node there.
fn look_near(part: &Part, left: &mut Vec<Place>, path: Path) -> Result<Option<Need>, AllocError>
    ensures { IfOk result (λ load. IfSome load (IsUnknownNear part.now path)) }
{
    match unknown_above(part, left.as_slice(), &path)? {
        Some(above) => leave(left, Need::Node(above), Place::Node(path)),
        None => Ok(unknown_there(part, path)),
    }
}

fn unknown_above(part: &Part, left: &[Place], path: &Path) -> Result<Option<Path>, AllocError>
    ensures above { IfOk result (λ above. IfSome above (λ p. parent_of path.now ≡ Some p)) }
    ensures unknown { IfOk result (λ above. IfSome above
        (λ p. IsFalse (knows part.now (need.Node p)))) }
{
    match path.parent()? {
        Some(above) => Ok(unknown_next(part, left, above)),
        None => Ok(None),
    }
}

// The path, where its node is the next to be looked at and isn't known.
fn unknown_next(part: &Part, left: &[Place], path: Path) -> Option<Path>
    ensures same { IfSome result (λ p. p ≡ path) }
    ensures unknown { IfSome result (λ p. IsFalse (knows part.now (need.Node p))) }
{
    if stands_next(left, &path) {
        unknown_path(part, path)
    } else {
        None
    }
}

// Whether the node at a path is the next to be looked at.
fn stands_next(left: &[Place], path: &Path) -> bool {
    match left.last() {
        Some(Place::Node(next)) => next == path,
        _ => false,
    }
}

// The path, where its node isn't known.
fn unknown_path(part: &Part, path: Path) -> Option<Path>
    ensures same { IfSome result (λ p. p ≡ path) }
    ensures unknown { IfSome result (λ p. IsFalse (knows part.now (need.Node p))) }
{
    match part.node(&path) {
        Some(_) => None,
        None => Some(path),
    }
}

fn unknown_there(part: &Part, path: Path) -> Option<Need>
    ensures { IfSome result (IsUnknownNear part.now path) }
{
    match part.node(&path) {
        Some(_) => None,
        None => Some(Need::Node(path)),
    }
}

// The children of a node are looked at from a place on, where they are known.
fn look_below(
    part: &Part,
    pending: &Pending,
    is_kept: bool,
    left: &mut Vec<Place>,
    path: Path,
    next: usize,
) -> Result<Option<Need>, AllocError>
    ensures { IfOk result (λ load. IfSome load (IsMetFirst part.now pending.now is_kept)) }
{
    match part.children(&path) {
        Some(names) => look_among(part, left, path, next, names),
        None => look_above(part, pending, is_kept, left, path),
    }
}

// The children of a node lack, where it is there; or the node does, which is looked at as others.
fn look_above(
    part: &Part,
    pending: &Pending,
    is_kept: bool,
    left: &mut Vec<Place>,
    path: Path,
) -> Result<Option<Need>, AllocError>
    requires unlisted { list_at part.now path ≡ None }
    ensures { IfOk result (λ load. IfSome load (IsMetFirst part.now pending.now is_kept)) }
{
    match part.node(&path) {
        Some(Some(_)) => leave(left, Need::Children(path.copy()?), Place::Below(path, 0)),
        Some(None) => Ok(None),
        None => look_at_top(part, pending, is_kept, left, path),
    }
}

// The node of which the children are to be looked at is looked at as others.
fn look_at_top(
    part: &Part,
    pending: &Pending,
    is_kept: bool,
    left: &mut Vec<Place>,
    path: Path,
) -> Result<Option<Need>, AllocError>
    ensures { IfOk result (λ load. IfSome load (IsMetFirst part.now pending.now is_kept)) }
{
    match look_at_node(part, pending, is_kept, left, path.copy()?)? {
        Some(load) => leave(left, load, Place::Below(path, 0)),
        None => Ok(None),
    }
}

fn look_among(
    part: &Part,
    left: &mut Vec<Place>,
    path: Path,
    next: usize,
    names: &[(Name, Option<Revision>)],
) -> Result<Option<Need>, AllocError>
    requires listed { list_at part.now path ≡ Some names.now }
    ensures { IfOk result (λ load. IfSome load (IsUnknownChild part.now)) }
{
    match names.get(next) {
        Some((name, _)) => look_at_child(part, left, path, next, name),
        None => Ok(None),
    }
}

// A child lacks, or, where it is there, what is below it is left to be looked at.
fn look_at_child(
    part: &Part,
    left: &mut Vec<Place>,
    path: Path,
    next: usize,
    name: &Name,
) -> Result<Option<Need>, AllocError>
    requires lists { IsTrue (lists_child part.now path name.now) }
    ensures { IfOk result (λ load. IfSome load (IsUnknownChild part.now)) }
{
    let child = path.child(name)?;
    match part.node(&child) {
        None => leave(left, Need::Node(child), Place::Below(path, next)),
        Some(None) => pass(left, path, next),
        Some(Some(_)) => enter(left, path, next, child),
    }
}

// A load, behind which a place is left to be looked at.
fn leave(left: &mut Vec<Place>, load: Need, place: Place) -> Result<Option<Need>, AllocError>
    ensures { IfOk result (λ found. found ≡ Some load) }
{
    left.push(place)?;
    Ok(Some(load))
}

// The next child is left to be looked at.
fn pass(left: &mut Vec<Place>, path: Path, next: usize) -> Result<Option<Need>, AllocError>
    ensures { IfOk result (λ load. load ≡ None) }
{
    left.push(Place::Below(path, next.saturating_add(1)))?;
    Ok(None)
}

// What is below a child is left to be looked at, and the next child behind that.
fn enter(
    left: &mut Vec<Place>,
    path: Path,
    next: usize,
    child: Path,
) -> Result<Option<Need>, AllocError>
    ensures { IfOk result (λ load. load ≡ None) }
{
    left.push(Place::Below(path, next.saturating_add(1)))?;
    left.push(Place::Below(child, 0))?;
    Ok(None)
}
