// Paths with all that is above them.
ghost use Rattle.std.specs.Prelude.{◌≡◌, IfOk, OnOk};
ghost use Rattle.oak_sync.specs.Upward.{AreUpward, node_paths};
ghost use Rattle.std.specs.Map.{keys_of};
ghost use Rattle.std.specs.List.Sorted.{IsStrictlySortedBy};
ghost use Rattle.jr_path.specs.Ids.{id_cmp};
ghost use Rattle.oak_sync.specs.Sets.{Adds, HasUpward};

use jr_path::{DeepCopy, DocId, Keyed, List, Path};
use std::alloc::{AllocError, Global};

/// The paths with their ancestors and the root, each once, in descending store order of their documents: each
/// behind all that is below it, the root last.
pub fn upward(alloc: Global, paths: &[Path]) -> Result<List<Path>, AllocError>
    ensures { IfOk result (AreUpward paths.now) }
{
    let ids = ids_upward(alloc, paths)?;
    let mut up = paths_of(alloc, ids)?;
    up.reverse();
    Ok(List::of(up))
}

// The ids of the documents of these paths and of all that is above them.
fn ids_upward(alloc: Global, paths: &[Path]) -> Result<Keyed<DocId, ()>, AllocError>
    ensures { IfOk result (HasUpward paths.now) }
{
    let mut ids = Keyed::new(alloc);
    put_upward(&Path::root(alloc), &mut ids)?;
    for path in paths {
        put_upward(path, &mut ids)?;
    }
    Ok(ids)
}

// Puts the ids of the documents of a path and of all that is above it.
fn put_upward(path: &Path, ids: &mut Keyed<DocId, ()>) -> Result<(), AllocError>
    ensures { OnOk result (Adds path.now ids.old ids.new) }
{
    for depth in 0..path.depth() {
        ids.put(DocId::Node(path.prefix(depth)?), ())?;
    }
    ids.put(DocId::Node(path.copy()?), ())?;
    Ok(())
}

// The paths of nodes' documents, in store order.
fn paths_of(alloc: Global, ids: Keyed<DocId, ()>) -> Result<Vec<Path>, AllocError>
    ensures paths { IfOk result (λ paths. paths.items ≡ node_paths (keys_of ids)) }
    ensures ordered { IfOk result (λ paths. IsStrictlySortedBy id_cmp (keys_of ids)) }
{
    let mut paths = Vec::with_capacity(alloc, ids.len())?;
    for (id, _) in ids.into_inner() {
        if let Some(path) = id.into_node_path() {
            paths.push(path)?;
        }
    }
    Ok(paths)
}
