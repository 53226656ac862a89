// The marks of an edit on a tree, found write by write.
ghost use Rattle.std.specs.Prelude.{◌≡◌, ◌==◌, ◌++◌, ◌∷◌, [], false, IfOk, OnOk};
ghost use Rattle.std.specs.List.{filter_map, flat_map, fold, list_any};
ghost use Rattle.std.specs.Option.{option_copied, option_map_or};
ghost use Rattle.jr_tree.specs.Edits.{applied};
ghost use Rattle.jr_items.specs.Items.{reference_in, same_name, values_in};
ghost use Rattle.jr_items.specs.Own.{own_name};
ghost use Rattle.jcr_lock.specs.Names.{lock_names};
ghost use Rattle.jcr_ref.specs.References.{target_of};
ghost use Rattle.oak_clash.specs.declared.mark.Mark.TheVariants.{Guard, Touch};
ghost use Rattle.oak_machine.specs.Marks.{marks_of_node, with_marks};
ghost use Rattle.jcr_marks.specs.Marks.{is_type_name, mark_each, marks_of, new_references};
ghost use Rattle.jcr_marks.specs.ByWrite.{covered_below, is_cover_name, marks_by, moved_marks, references_added, references_in, retyped_marks, written_marks};

use crate::covered::{is_newly_covered, stays};
use jcr_lock::LockNames;
use jcr_ref::targets_of;
use jr_edited::Edited;
use jr_items::OwnName;
use jr_path::{DeepCopy, Keyed, List, Name, Path};
use jr_tree::Write;
use jr_value::{Property, Value};
use oak_clash::{Mark, MarkAt};
use std::alloc::{AllocError, Global};

/// The marks of writes that lead from one tree to another, each once, in path order and at one path in the order of marks.
pub fn marks_between(
    alloc: Global,
    old: &Edited<'_>,
    new: &Edited<'_>,
    writes: &[Write],
) -> Result<List<MarkAt>, AllocError>
    requires { new.now ≡ applied None old.now writes.now }
    ensures { IfOk result (λ marks. marks ≡ marks_of old.now writes.now) }
{
    old.in_order();
    let mut found = Keyed::new(alloc);
    note_writes(&mut found, alloc, old, new, writes)?;
    note_targets(&mut found, alloc, old, new, writes)?;
    let mut marks = List::new(alloc);
    for (mark, _) in found.into_inner() {
        marks.push(mark)?;
    }
    Ok(marks)
}

// Notes the marks for which each write is the cause, but for the targets of new references.
fn note_writes(
    found: &mut Keyed<MarkAt, bool>,
    alloc: Global,
    old: &Edited<'_>,
    new: &Edited<'_>,
    writes: &[Write],
) -> Result<(), AllocError>
    ensures { OnOk result (found.new
        ≡ fold (λ es w. with_marks es (marks_by old.now new.now w)) found.old writes.now) }
{
    let names = LockNames::new(alloc)?;
    for write in writes {
        note_write(found, alloc, old, new, &names, write)?;
    }
    Ok(())
}

fn note_write(
    found: &mut Keyed<MarkAt, bool>,
    alloc: Global,
    old: &Edited<'_>,
    new: &Edited<'_>,
    names: &LockNames,
    write: &Write,
) -> Result<(), AllocError>
    requires { names.now ≡ lock_names }
    ensures { OnOk result (found.new ≡ with_marks found.old (marks_by old.now new.now write.now)) }
{
    match write {
        Write::Here(path) | Write::Gone(path) => note_moved(found, alloc, old, new, names, path),
        Write::Put(path, name, _) | Write::Unset(path, name) => {
            note_written(found, alloc, old, new, names, path, name)
        }
    }
}

// Notes the marks of a node that comes or goes, and of the nodes below it that are covered anew.
fn note_moved(
    found: &mut Keyed<MarkAt, bool>,
    alloc: Global,
    old: &Edited<'_>,
    new: &Edited<'_>,
    names: &LockNames,
    path: &Path,
) -> Result<(), AllocError>
    requires { names.now ≡ lock_names }
    ensures { OnOk result
        (found.new ≡ with_marks found.old (moved_marks old.now new.now path.now)) }
{
    note_node(found, path)?;
    note_covered(found, alloc, old, new, names, path)
}

// Notes the marks of a property that is written.
fn note_written(
    found: &mut Keyed<MarkAt, bool>,
    alloc: Global,
    old: &Edited<'_>,
    new: &Edited<'_>,
    names: &LockNames,
    path: &Path,
    name: &Name,
) -> Result<(), AllocError>
    requires { names.now ≡ lock_names }
    ensures { OnOk result
        (found.new ≡ with_marks found.old (written_marks old.now new.now path.now name.now)) }
{
    note(found, path.copy()?, Mark::Prop(name.copy()?))?;
    if is_type_name(name) {
        note_retyped(found, old, new, path)?;
    }
    if is_cover_name(name) {
        note_covered(found, alloc, old, new, names, path)?;
    }
    Ok(())
}

// Notes the marks of a node whose types are written, where it stays.
fn note_retyped(
    found: &mut Keyed<MarkAt, bool>,
    old: &Edited<'_>,
    new: &Edited<'_>,
    path: &Path,
) -> Result<(), AllocError>
    ensures { OnOk result
        (found.new ≡ with_marks found.old (retyped_marks old.now new.now path.now)) }
{
    if !stays(old, new, path) {
        return Ok(());
    }
    note(found, path.copy()?, Mark::Guard)?;
    match path.parent()? {
        Some(parent) => note(found, parent, Mark::Touch),
        None => Ok(()),
    }
}

// Notes the Guard of each node at or below a path that stays and is covered anew.
fn note_covered(
    found: &mut Keyed<MarkAt, bool>,
    alloc: Global,
    old: &Edited<'_>,
    new: &Edited<'_>,
    names: &LockNames,
    path: &Path,
) -> Result<(), AllocError>
    requires { names.now ≡ lock_names }
    ensures { OnOk result (found.new
        ≡ with_marks found.old (mark_each Guard (covered_below old.now new.now path.now))) }
{
    for (at, _) in &new.under(path)? {
        if is_newly_covered(alloc, old, new, names, at)? {
            note(found, at.copy()?, Mark::Guard)?;
        }
    }
    Ok(())
}

// Notes the marks of the node itself that comes or goes, and of its parent.
fn note_node(found: &mut Keyed<MarkAt, bool>, path: &Path) -> Result<(), AllocError>
    ensures { OnOk result (found.new ≡ with_marks found.old (marks_of_node path.now)) }
{
    note(found, path.copy()?, Mark::Exists)?;
    match path.parent()? {
        Some(parent) => note(found, parent, Mark::Touch),
        None => Ok(()),
    }
}

// Notes a mark.
fn note(found: &mut Keyed<MarkAt, bool>, path: Path, mark: Mark) -> Result<(), AllocError>
    ensures { OnOk result
        (found.new ≡ with_marks found.old (record { path = path; mark = mark } ∷ [])) }
{
    found.put(MarkAt { path, mark }, true)?;
    Ok(())
}

/// Whether the property tells a node's types.
pub fn is_type_name(name: &Name) -> bool
    ensures { result ≡ is_type_name name.now }
{
    is_one(name, OwnName::PrimaryType) || is_one(name, OwnName::MixinTypes)
}

fn is_one(name: &Name, own: OwnName) -> bool
    ensures { result ≡ same_name name.now (own_name own) }
{
    own.is(name)
}

// Whether locks or checked-in nodes go by the property.
fn is_cover_name(name: &Name) -> bool
    ensures { result ≡ is_cover_name name.now }
{
    OwnName::LockOwner.is(name)
        || OwnName::LockIsDeep.is(name)
        || OwnName::MixinTypes.is(name)
        || OwnName::IsCheckedOut.is(name)
}

// Notes the Touch of each node that a new reference names.
fn note_targets(
    found: &mut Keyed<MarkAt, bool>,
    alloc: Global,
    old: &Edited<'_>,
    new: &Edited<'_>,
    writes: &[Write],
) -> Result<(), AllocError>
    ensures { OnOk result (found.new ≡ with_marks found.old (mark_each Touch
        (filter_map (target_of new.now) (flat_map (new_references old.now) writes.now)))) }
{
    let ids = new_references(alloc, old, writes)?;
    for target in &targets_in(alloc, new, &ids)? {
        note(found, target.copy()?, Mark::Touch)?;
    }
    Ok(())
}

// The nodes that these references name: the whole tree is gone over only where there are references.
fn targets_in(alloc: Global, tree: &Edited<'_>, ids: &[u128]) -> Result<Vec<Path>, AllocError>
    ensures { IfOk result (λ paths. paths.items ≡ filter_map (target_of tree.now) ids.now) }
{
    if ids.is_empty() {
        return Ok(Vec::new(alloc));
    }
    targets_of(alloc, &tree.tree()?, ids)
}

// The references that the writes add to their properties.
fn new_references(
    alloc: Global,
    old: &Edited<'_>,
    writes: &[Write],
) -> Result<Vec<u128>, AllocError>
    ensures { IfOk result (λ ids. ids.items ≡ flat_map (new_references old.now) writes.now) }
{
    let mut ids = Vec::new(alloc);
    for write in writes {
        push_new(&mut ids, old, write)?;
    }
    Ok(ids)
}

fn push_new(ids: &mut Vec<u128>, old: &Edited<'_>, write: &Write) -> Result<(), AllocError>
    ensures { OnOk result (ids.new.items ≡ ids.old.items ++ new_references old.now write.now) }
{
    match write {
        Write::Put(path, name, property) => {
            push_references(ids, old.property(path, name), property)
        }
        Write::Here(_) | Write::Gone(_) | Write::Unset(..) => Ok(()),
    }
}

// Puts those references of a property that the one before it did not have.
fn push_references(
    ids: &mut Vec<u128>,
    before: Option<&Property>,
    property: &Property,
) -> Result<(), AllocError>
    ensures { OnOk result (ids.new.items
        ≡ ids.old.items ++ references_added (option_copied before.entry) (values_in property.now)) }
{
    match property {
        Property::Single(value) => push_reference(ids, before, value),
        Property::Many(_, values) => push_each(ids, before, values.as_slice()),
    }
}

fn push_each(
    ids: &mut Vec<u128>,
    before: Option<&Property>,
    values: &[Value],
) -> Result<(), AllocError>
    ensures { OnOk result (ids.new.items
        ≡ ids.old.items ++ references_added (option_copied before.entry) values.now) }
{
    for value in values {
        push_reference(ids, before, value)?;
    }
    Ok(())
}

fn push_reference(
    ids: &mut Vec<u128>,
    before: Option<&Property>,
    value: &Value,
) -> Result<(), AllocError>
    ensures { OnOk result (ids.new.items
        ≡ ids.old.items ++ references_added (option_copied before.entry) (value.now ∷ [])) }
{
    if let Value::Reference(id) = value
        && !refers_to(before, *id)
    {
        ids.push(*id)?;
    }
    Ok(())
}

// Whether a value of the property is a REFERENCE with that number.
fn refers_to(property: Option<&Property>, id: u128) -> bool
    ensures { result ≡ list_any (λ old. old == id) (references_in (option_copied property.entry)) }
{
    match property {
        Some(Property::Single(value)) => is_reference(value, id),
        Some(Property::Many(_, values)) => is_among(values.as_slice(), id),
        None => false,
    }
}

fn is_among(values: &[Value], id: u128) -> bool
    ensures { result ≡ list_any (λ old. old == id) (filter_map reference_in values.now) }
{
    for value in values {
        if is_reference(value, id) {
            return true;
        }
    }
    false
}

fn is_reference(value: &Value, id: u128) -> bool
    ensures { result ≡ option_map_or (λ old. old == id) (reference_in value.now) false }
{
    match value {
        Value::Reference(number) => *number == id,
        _ => false,
    }
}
