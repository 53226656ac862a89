// What a committer meets in a document: the other revisions with a mark there that clashes with one of its own.
ghost use Rattle.std.specs.Prelude.{◌≡◌, ◌∷◌, [], ◌++◌, IfOk, OnOk, Some, filter, map, option_to_list, take, true};
ghost use Rattle.std.specs.List.{flat_map, list_any};
ghost use Rattle.std.specs.Map.{keys_of};
ghost use Rattle.std.specs.Option.{option_copied, option_map, option_map_or};
ghost use Rattle.jr_rev.specs.Vectors.{sees};
ghost use Rattle.oak_clash.specs.Clashes.{clash, earlier_of, first_mark, is_earlier, marked_item};
ghost use Rattle.oak_commit.specs.Clashing.{has_mark, marks_in, met_among, marked_revisions};
ghost use Rattle.oak_commit.specs.Meeting.{due_in, met_in, met_of, root_in, with_revisions};

use jr_path::{DeepCopy, DocId, Item, Keyed, Name, Path};
use jr_rev::{RevVec, Revision};
use oak_clash::{Mark, clashes};
use oak_doc::Document;
use std::alloc::{AllocError, Global};

// A mark to make, of another revision that was met.
#[derive(Drop)]
pub(crate) struct Due {
    pub(crate) other: Revision,
    // The item of one's own mark that clashes first.
    pub(crate) mine: Item,
    // The item of the other's mark that clashes first.
    pub(crate) theirs: Item,
    // The commit root of the other.
    pub(crate) root: Path,
}

// What a revision, with these marks of its own at a path, meets in the document there.
pub(crate) fn met_in(
    alloc: Global,
    base: &RevVec,
    r: Revision,
    path: &Path,
    mine: &[Mark],
    document: &Document,
) -> Result<Vec<Due>, AllocError>
    ensures { IfOk result (λ dues. dues.items ≡ map (due_in document.now)
        (met_in base.now r path.now mine.now document.now)) }
{
    let mut dues = Vec::new(alloc);
    for (other, _) in revisions_in(alloc, document)?.into_inner() {
        let due = met_of(alloc, base, r, path, mine, document, other)?;
        push_some(&mut dues, due)?;
    }
    Ok(dues)
}

fn push_some(dues: &mut Vec<Due>, due: Option<Due>) -> Result<(), AllocError>
    ensures { OnOk result (dues.new.items ≡ dues.old.items ++ option_to_list due) }
{
    if let Some(due) = due {
        dues.push(due)?;
    }
    Ok(())
}

// What it meets of another there, unless its base sees that.
fn met_of(
    alloc: Global,
    base: &RevVec,
    r: Revision,
    path: &Path,
    mine: &[Mark],
    document: &Document,
    other: Revision,
) -> Result<Option<Due>, AllocError>
    ensures { IfOk result (λ due. due ≡ option_map (due_in document.now)
        (met_of base.now r path.now mine.now document.now other)) }
{
    if other == r || base.sees(other) {
        return Ok(None);
    }
    let others = marks_in(alloc, document, other)?;
    let Some(mine_met) = met_among(path, mine, &others)? else {
        return Ok(None);
    };
    let Some(theirs) = met_among(path, &others, mine)? else {
        return Ok(None);
    };
    Ok(Some(Due {
        other,
        mine: mine_met,
        theirs,
        root: root_in(alloc, document, other)?,
    }))
}

// The path of the commit root that a document notes for a revision.
fn root_in(alloc: Global, document: &Document, r: Revision) -> Result<Path, AllocError>
    ensures { IfOk result (λ root. root ≡ root_in document.now r) }
{
    match &document.id {
        DocId::Node(path) | DocId::Prev(_, path) => ancestor(path, document.commit_root.get(&r)),
        DocId::Settings => Ok(Path::root(alloc)),
    }
}

// The ancestor of a depth, or the node itself.
fn ancestor(path: &Path, depth: Option<&u32>) -> Result<Path, AllocError>
    ensures { IfOk result (λ root. root ≡ option_map_or (λ n. take n path.now) (option_copied depth.entry) path.now) }
{
    match depth {
        Some(depth) => path.prefix(path.depth().min(*depth as usize)),
        None => path.copy(),
    }
}

// The revisions that have a mark in a document, in ascending order.
fn revisions_in(alloc: Global, document: &Document) -> Result<Keyed<Revision, bool>, AllocError>
    ensures { IfOk result (λ revisions. keys_of revisions ≡ marked_revisions (Some document.now)) }
{
    let mut revisions = Keyed::new(alloc);
    put_revisions(&mut revisions, &document.deleted)?;
    put_revisions(&mut revisions, &document.guard)?;
    put_revisions(&mut revisions, &document.touched)?;
    put_revisions_of_properties(&mut revisions, document)?;
    Ok(revisions)
}

// Puts the revisions of a document's properties.
fn put_revisions_of_properties(
    revisions: &mut Keyed<Revision, bool>,
    document: &Document,
) -> Result<(), AllocError>
    ensures { OnOk result (revisions.new ≡ with_revisions revisions.old
        (flat_map (λ e. keys_of e.1) document.now.props)) }
{
    for (_, values) in document.props.iter() {
        put_revisions(revisions, values)?;
    }
    Ok(())
}

// Puts the revisions of some entries.
fn put_revisions<V>(
    revisions: &mut Keyed<Revision, bool>,
    entries: &Keyed<Revision, V>,
) -> Result<(), AllocError>
    ensures { OnOk result (revisions.new ≡ with_revisions revisions.old (keys_of entries.now)) }
{
    for (r, _) in entries.iter() {
        revisions.put(*r, true)?;
    }
    Ok(())
}

// The marks that a document has of a revision, in their order.
fn marks_in(alloc: Global, document: &Document, r: Revision) -> Result<Vec<Mark>, AllocError>
    ensures { IfOk result (λ marks. marks.items ≡ marks_in (Some document.now) r) }
{
    let mut marks = Vec::new(alloc);
    put_mark(&mut marks, document, r, Mark::Exists)?;
    put_mark(&mut marks, document, r, Mark::Guard)?;
    put_mark(&mut marks, document, r, Mark::Touch)?;
    for (name, _) in document.props.iter() {
        put_mark(&mut marks, document, r, Mark::Prop(name.copy()?))?;
    }
    Ok(marks)
}

// Puts a mark, where the document has it of the revision.
fn put_mark(
    marks: &mut Vec<Mark>,
    document: &Document,
    r: Revision,
    mark: Mark,
) -> Result<(), AllocError>
    ensures { OnOk result (marks.new.items ≡ marks.old.items
        ++ filter (has_mark document.now r) (mark ∷ [])) }
{
    if has_mark(document, r, &mark) {
        marks.push(mark)?;
    }
    Ok(())
}

// Whether the document has the entry that a mark of the revision leaves.
fn has_mark(document: &Document, r: Revision, mark: &Mark) -> bool
    ensures { result ≡ has_mark document.now r mark.now }
{
    match mark {
        Mark::Exists => document.deleted.contains(&r),
        Mark::Guard => document.guard.contains(&r),
        Mark::Touch => document.touched.contains(&r),
        Mark::Prop(name) => has_property(document, r, name),
    }
}

fn has_property(document: &Document, r: Revision, name: &Name) -> bool
    ensures { result ≡ has_mark document.now r (Mark.Prop name.now) }
{
    match document.props.get(name) {
        Some(values) => values.contains(&r),
        None => false,
    }
}

// The item of the first of some marks at a path that clashes with one of the others.
fn met_among(path: &Path, mine: &[Mark], others: &[Mark]) -> Result<Option<Item>, AllocError>
    ensures { IfOk result (λ item. item ≡ met_among path.now mine.now others.now) }
{
    match first_met(mine, others) {
        Some(mark) => Ok(Some(item_of(path, mark)?)),
        None => Ok(None),
    }
}

// The first of some marks that clashes with one of the others.
#[tactic(auto, using(crate::proofs::Backward::left_more))]
fn first_met<'a>(mine: &'a [Mark], others: &[Mark]) -> Option<&'a Mark>
    ensures { option_copied result ≡ first_mark (filter (λ m. list_any (clash m) others.now) mine.now) }
{
    let mut first = None;
    for at in (0..mine.len()).rev() {
        let mark = &mine[at];
        if clashes_with(mark, others) {
            first = Some(earlier_of(mark, first));
        }
    }
    first
}

// Whether a mark clashes with one of the others.
fn clashes_with(mark: &Mark, others: &[Mark]) -> bool
    ensures { result ≡ list_any (clash mark.now) others.now }
{
    others.iter().any(|other| clashes(mark, other))
}

// The earlier of a mark and another, if there is one.
fn earlier_of<'a>(mark: &'a Mark, first: Option<&'a Mark>) -> &'a Mark
    ensures { result.now ≡ earlier_of mark.now (option_copied first.entry) }
{
    match first {
        Some(other) => { if other < mark { other } else { mark } }
        None => mark,
    }
}

// The item that a mark at a path is of.
fn item_of(path: &Path, mark: &Mark) -> Result<Item, AllocError>
    ensures { IfOk result (λ item. item ≡ marked_item path.now mark.now) }
{
    let name = match mark {
        Mark::Prop(name) => Some(name.copy()?),
        Mark::Exists | Mark::Guard | Mark::Touch => None,
    };
    Ok(Item {
        path: path.copy()?,
        name,
    })
}
