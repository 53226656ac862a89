// At which places of a list the items of each path stand.
ghost use Rattle.std.specs.Prelude.{◌≡◌, ◌++◌, ◌∷◌, [], IfOk, OnOk, map, slice_get};
ghost use Rattle.std.specs.Option.{option_map_or};
ghost use Rattle.oak_commit.specs.Places.{Finds, items_at, path_of_write, places_of, with_path_place};

use jr_path::{DeepCopy, Keyed, List, Path};
use jr_tree::Write;
use oak_clash::{Mark, MarkAt};
use std::alloc::{AllocError, Global};

// For each path its places, in ascending order.
pub(crate) type Places = Keyed<Path, List<usize>>;

// Where the writes of each node stand.
pub(crate) fn places_of_writes(alloc: Global, writes: &[Write]) -> Result<Places, AllocError>
    ensures { IfOk result (λ places. Finds path_of_write writes.now writes.now places) }
{
    let mut places = Keyed::new(alloc);
    for (at, write) in writes.iter().enumerate() {
        put_place(alloc, &mut places, write.path(), at)?;
    }
    Ok(places)
}

// Where the marks of each node stand.
pub(crate) fn places_of_marks(alloc: Global, marks: &[MarkAt]) -> Result<Places, AllocError>
    ensures { IfOk result (λ places. Finds (λ m. m.path) marks.now marks.now places) }
{
    let mut places = Keyed::new(alloc);
    for (at, mark) in marks.iter().enumerate() {
        put_place(alloc, &mut places, &mark.path, at)?;
    }
    Ok(places)
}

// Puts one more place of a path.
fn put_place(alloc: Global, places: &mut Places, path: &Path, at: usize) -> Result<(), AllocError>
    ensures { OnOk result (places.new ≡ with_path_place places.old path.now at) }
{
    if let Some(known) = places.inner_mut().get_mut(path) {
        known.push(at)?;
        return Ok(());
    }
    let mut known = List::new(alloc);
    known.push(at)?;
    places.put(path.copy()?, known)?;
    Ok(())
}

// Copies of the marks that stand at the places of a path.
pub(crate) fn marks_here(
    alloc: Global,
    path: &Path,
    marks: &[MarkAt],
    places: &Places,
) -> Result<Vec<Mark>, AllocError>
    ensures { IfOk result (λ here. here.items
        ≡ map (λ m. m.mark) (items_at marks.now (places_of places.now path.now))) }
{
    let mut here = Vec::new(alloc);
    let Some(places) = places.get(path) else {
        return Ok(here);
    };
    for at in places.inner() {
        push_mark(&mut here, marks, *at)?;
    }
    Ok(here)
}

// Puts a copy of the mark at a place.
fn push_mark(here: &mut Vec<Mark>, marks: &[MarkAt], at: usize) -> Result<(), AllocError>
    ensures { OnOk result (here.new.items ≡ here.old.items
        ++ option_map_or (λ m. m.mark ∷ []) (slice_get marks.now at) []) }
{
    if let Some(mark) = marks.get(at) {
        here.push(mark.mark.copy()?)?;
    }
    Ok(())
}
