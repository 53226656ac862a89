// What a cluster node knows of what changed between two vectors.
ghost use Rattle.std.specs.Prelude.{IfOk, map, ◌≡◌};
ghost use Rattle.oak_world.specs.Changes.{told_up_to};

use jr_path::{DeepCopy, List, Path};
use jr_rev::RevVec;
use oak_node::{NodeMem, Note};
use std::alloc::{AllocError, Global};

// What the draws of a cluster node changed between a vector and a base that the node's head sees:
// their paths. None where that isn't known.
pub(crate) fn changed_up_to(
    alloc: Global,
    memory: &NodeMem,
    since: &RevVec,
    base: &RevVec,
) -> Result<Option<List<Path>>, AllocError>
    ensures { IfOk result (λ told. told ≡ told_up_to memory.now since.now base.now) }
{
    if !since.is_below(base) || !base.is_below(&memory.head()) {
        return Ok(None);
    }
    match memory.changed_since(since) {
        Some(notes) => Ok(Some(paths_of(alloc, notes)?)),
        None => Ok(None),
    }
}

// The paths of the notes, one for each.
fn paths_of(alloc: Global, notes: &[Note]) -> Result<List<Path>, AllocError>
    ensures { IfOk result (λ paths. paths ≡ map (λ note. note.path) notes.now) }
{
    let mut paths = List::new(alloc);
    for note in notes {
        paths.push(note.path.copy()?)?;
    }
    Ok(paths)
}
