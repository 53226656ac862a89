// The marked nodes of a commit, and its commit root.
ghost use Rattle.std.specs.Prelude.{◌≡◌, ◌≤◌, [], true, IfOk, OnOk, length, take};
ghost use Rattle.std.specs.BTreeMap.{insert_entry};
ghost use Rattle.std.specs.List.{fold};
ghost use Rattle.std.specs.Map.{keys_of};
ghost use Rattle.jr_path.specs.Names.{path_cmp};
ghost use Rattle.oak_clash.specs.Clashes.{common, commit_root, marked_paths};

use crate::MarkAt;
use jr_path::{DeepCopy, Keyed, List, Name, Path};
use std::alloc::{AllocError, Global};

// How many names the two begin with.
fn common_depth(a: &[Name], b: &[Name]) -> usize
    ensures within { result ≤ length a.now }
    ensures names { take result a.now ≡ common a.now b.now }
{
    let end = a.len().min(b.len());
    for depth in 0..end {
        if a[depth] != b[depth] {
            return depth;
        }
    }
    end
}

/// The deepest node that is each marked node or an ancestor of it; the root where none is marked (Oak,
/// DocumentNodeStore: commit root).
pub fn commit_root(alloc: Global, marks: &[MarkAt]) -> Result<Path, AllocError>
    ensures { IfOk result (λ root. root ≡ commit_root marks.now) }
{
    let [first, rest @ ..] = marks else {
        return Ok(Path::root(alloc));
    };
    let names = first.path.names();
    let mut depth = names.len();
    for mark in rest {
        depth = common_depth(&names[..depth], mark.path.names());
    }
    first.path.prefix(depth)
}

/// The marked nodes, each once, in path order.
pub fn marked_paths(alloc: Global, marks: &[MarkAt]) -> Result<List<Path>, AllocError>
    ensures { IfOk result (λ paths. paths ≡ marked_paths marks.now) }
{
    keys(alloc, marked(alloc, marks)?)
}

// The marked nodes as keys.
fn marked(alloc: Global, marks: &[MarkAt]) -> Result<Keyed<Path, bool>, AllocError>
    ensures { IfOk result (λ marked. marked ≡ fold (λ es m. insert_entry path_cmp es m.path true) [] marks.now) }
{
    let mut marked = Keyed::new(alloc);
    for mark in marks {
        put_marked(&mut marked, mark)?;
    }
    Ok(marked)
}

// Puts the node of a mark among the marked ones.
fn put_marked(marked: &mut Keyed<Path, bool>, mark: &MarkAt) -> Result<(), AllocError>
    ensures { OnOk result (marked.new ≡ insert_entry path_cmp marked.old mark.now.path true) }
{
    marked.put(mark.path.copy()?, true)
}

// The keys of a map, in their order.
fn keys(alloc: Global, map: Keyed<Path, bool>) -> Result<List<Path>, AllocError>
    ensures { IfOk result (λ paths. paths ≡ keys_of map) }
{
    let mut paths = List::new(alloc);
    for (path, _) in map.into_inner() {
        paths.push(path)?;
    }
    Ok(paths)
}
