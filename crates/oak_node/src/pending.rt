// The paths that a cluster node noted, and what is taken of them to be published.
ghost use Rattle.std.specs.Prelude.{◌≡◌, ◌↔◌, ◌∷◌, ◌++◌, [], IfOk, OnErr, OnOk, Contains, List as Seq};
ghost use Rattle.std.specs.List.Sorted.{IsStrictlySortedBy};
ghost use Rattle.jr_path.specs.Names.{path_cmp};
ghost use Rattle.oak_node.specs.Notes.{notes_of};
ghost use Rattle.oak_node.specs.Seen.{seen_paths};
ghost use Rattle.oak_node.specs.declared.pending.Note.{Note};

use jr_path::{DeepCopy, List, Path};
use jr_rev::{RevVec, Revision};
use std::alloc::{AllocError, Global};

/// A path that a commit changed, with the commit's revision.
pub struct Note {
    pub path: Path,
    pub revision: Revision,
}

// By hand, so that its parts are let go in one call.
impl Drop for Note {
    fn drop(self) {
        let Note { path, revision: _ } = self;
        drop(path);
    }
}

/// What a background write is to publish (Oak, DocumentNodeStore: "Background operations"): the
/// changed paths, each once and in path order, and the revision that becomes their `_lastRev`.
pub struct Pending {
    pub paths: List<Path>,
    pub upto: Revision,
}

// By hand, so that its parts are let go in one call.
impl Drop for Pending {
    fn drop(self) {
        let Pending { paths, upto: _ } = self;
        drop(paths);
    }
}

impl DeepCopy for Pending {
    fn copy(&self) -> Result<Pending, AllocError> {
        Ok(Pending {
            paths: self.paths.copy()?,
            upto: self.upto,
        })
    }
}

// Notes paths with a revision. Where memory is refused none is noted.
pub(crate) fn put_notes(
    notes: &mut Vec<Note>,
    paths: &[Path],
    r: Revision,
) -> Result<(), AllocError>
    ensures ok { OnOk result (notes.new.items ≡ notes.old.items ++ notes_of r paths.now) }
    ensures err { OnErr result (notes.new.items ≡ notes.old.items) }
{
    let noted = notes.len();
    match put_each(notes, paths, r) {
        Ok(()) => Ok(()),
        Err(error) => {
            notes.truncate(noted);
            Err(error)
        }
    }
}

// Notes paths with a revision, as many as memory is given for.
fn put_each(notes: &mut Vec<Note>, paths: &[Path], r: Revision) -> Result<(), AllocError>
    ensures ok { OnOk result (notes.new.items ≡ notes.old.items ++ notes_of r paths.now) }
    ensures front { (more : Seq Note) × (notes.new.items ≡ notes.old.items ++ more) }
{
    for path in paths {
        put_note(notes, path, r)?;
    }
    Ok(())
}

// Notes a path with a revision.
pub(crate) fn put_note(notes: &mut Vec<Note>, path: &Path, r: Revision) -> Result<(), AllocError>
    ensures ok { OnOk result (notes.new.items ≡ notes.old.items ++ notes_of r (path.now ∷ [])) }
    ensures err { OnErr result (notes.new.items ≡ notes.old.items) }
{
    notes.push(Note {
        path: path.copy()?,
        revision: r,
    })?;
    Ok(())
}

// The noted paths whose revision the head sees, each once and in path order.
pub(crate) fn due_paths(
    alloc: Global,
    notes: &[Note],
    head: &RevVec,
) -> Result<Vec<Path>, AllocError>
    ensures ordered { IfOk result (λ paths. IsStrictlySortedBy path_cmp paths.items) }
    ensures noted { IfOk result (λ paths. (path : _) →
        Contains paths.items path ↔ Contains (seen_paths head.now notes.now) path) }
{
    let mut paths = Vec::new(alloc);
    for note in notes {
        if head.sees(note.revision) {
            paths.push(note.path.copy()?)?;
        }
    }
    paths.sort_unstable();
    paths.dedup();
    Ok(paths)
}
