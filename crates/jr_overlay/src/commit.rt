// How the steps of a draft are made to count: each path gets a place, then each node moves in.
ghost use Rattle.std.specs.Prelude.{◌≡◌, ℕ, IfOk, OnOk, OnErr, map, take};
ghost use Rattle.std.specs.List.{fold};
ghost use Rattle.std.specs.Map.Iter.{deref};
ghost use Rattle.std.specs.Option.{option_map};
ghost use Rattle.jr_tree.specs.Trees.{born_of, node_at};
ghost use Rattle.jr_overlay.specs.Overlays.{dated_as};
ghost use Rattle.jr_overlay.specs.Committing.{change_moved, place_at, untouched, with_new_at, with_places, without_places};

use crate::Change;
use jr_part::Part;
use jr_path::{DeepCopy, Keyed, Path};
use jr_rev::Revision;
use jr_tree::Node;
use std::alloc::{AllocError, Global};

type Steps = Keyed<Path, Option<Node>>;

// Puts a change that keeps what is known at the base at each path of the steps that isn't touched
// yet. A refusal leaves all as it was.
pub(crate) fn make_places(
    changes: &mut Keyed<Path, Change>,
    alloc: Global,
    part: &Part,
    steps: &Steps,
) -> Result<(), AllocError>
    ensures ok { OnOk result (changes.new
        ≡ with_places part.now.nodes changes.old (untouched changes.old steps.now)) }
    ensures err { OnErr result (changes.new ≡ changes.old) }
{
    let _ = changes.len();
    let untouched = untouched_paths(changes, alloc, steps)?;
    match put_places(changes, part, &untouched) {
        Ok(()) => Ok(()),
        Err(refused) => {
            remove_places(changes, &untouched);
            Err(refused)
        }
    }
}

// The paths of the steps that aren't touched yet.
fn untouched_paths<'a>(
    changes: &Keyed<Path, Change>,
    alloc: Global,
    steps: &'a Steps,
) -> Result<Vec<&'a Path>, AllocError>
    ensures { IfOk result (λ paths. map deref paths.items ≡ untouched changes.now steps.now) }
{
    let mut paths = Vec::new(alloc);
    for (path, _) in steps.inner() {
        if !changes.contains(path) {
            paths.push(path)?;
        }
    }
    Ok(paths)
}

// A refusal leaves the places that were put before it.
fn put_places(
    changes: &mut Keyed<Path, Change>,
    part: &Part,
    paths: &[&Path],
) -> Result<(), AllocError>
    ensures ok { OnOk result (changes.new
        ≡ with_places part.now.nodes changes.old (map deref paths.now)) }
    ensures err { OnErr result ((n : ℕ) × (changes.new
        ≡ with_places part.now.nodes changes.old (map deref (take n paths.now)))) }
{
    for path in paths {
        changes.put(path.copy()?, place_at(part, path)?)?;
    }
    Ok(())
}

// A change that keeps what is known at the base, with no node in the view.
fn place_at(part: &Part, path: &Path) -> Result<Change, AllocError>
    ensures { IfOk result (λ place. place ≡ place_at part.now.nodes path.now) }
{
    Ok(Change {
        old: known_copy(part, path)?,
        new: None,
    })
}

// A copy of the node that is known to be at a path.
fn known_copy(part: &Part, path: &Path) -> Result<Option<Node>, AllocError>
    ensures { IfOk result (λ node. node ≡ node_at part.now.nodes path.now) }
{
    match part.node(path).flatten() {
        Some(node) => Ok(Some(node.copy()?)),
        None => Ok(None),
    }
}

fn remove_places(changes: &mut Keyed<Path, Change>, paths: &[&Path])
    ensures { changes.new ≡ without_places changes.old (map deref paths.now) }
{
    for gone in paths {
        changes.remove(gone);
    }
}

// Moves the steps' nodes into the places that are there for them, without memory.
pub(crate) fn move_in(changes: &mut Keyed<Path, Change>, steps: Steps)
    ensures { changes.new ≡ fold with_new_at changes.old steps }
{
    for (path, node) in steps.into_inner() {
        if let Some(place) = changes.inner_mut().get_mut(&path) {
            place.take(node);
        }
    }
}

impl Change {
    // Takes a node for the view, dated as what stood at the base.
    fn take(&mut self, node: Option<Node>)
        ensures { self.exit.now ≡ change_moved self.entry.now node }
    {
        self.new = dated(node, &self.old);
    }
}

// A node, dated as what stood at its path at the base.
fn dated(node: Option<Node>, old: &Option<Node>) -> Option<Node>
    ensures { result ≡ option_map (dated_as old.now) node }
{
    match node {
        Some(mut node) => {
            node.born = born_of(old);
            Some(node)
        }
        None => None,
    }
}

// The revision that added a node, or none while its adding is pending.
fn born_of(node: &Option<Node>) -> Option<Revision>
    ensures { result ≡ born_of node.now }
{
    match node {
        Some(node) => node.born,
        None => None,
    }
}
