// The nodes that an edit changes, and the locks and checked-in nodes that cover them.
ghost use Rattle.std.specs.Prelude.{◌≡◌, ◌++◌, ◌∷◌, [], None, Some, not, option_to_list, IfOk, OnOk, map};
ghost use Rattle.std.specs.List.{filter, filter_map, flat_map};
ghost use Rattle.std.specs.Option.{option_copied};
ghost use Rattle.std.specs.String.{string_bytes};
ghost use Rattle.jr_path.specs.Names.{parent_of};
ghost use Rattle.jr_tree.specs.Edits.{applied};
ghost use Rattle.jr_tree.specs.Trees.{property_at};
ghost use Rattle.jr_items.specs.Items.{first_of, in_path_order};
ghost use Rattle.jr_types.specs.declared.OnParentVersion.TheVariants as opv;
ghost use Rattle.jr_types.specs.Attributes.{child_passes, property_passes};
ghost use Rattle.jr_types.specs.Rules.{child_at, node_types};
ghost use Rattle.jr_types.specs.Types.{is_opv};
ghost use Rattle.jcr_lock.specs.Locks.{frozen_by, locked_by};
ghost use Rattle.jcr_plan.specs.First.{sooner};
ghost use Rattle.jcr_plan.specs.Plans.{changed_by, is_ignored, is_ignored_child};
ghost use Rattle.jcr_plan.specs.Refusals.{frozen_over, locked_over};

use jcr_lock::{frozen_by, locked_by};
use jr_edited::Edited;
use jr_path::{DeepCopy, Name, Path};
use jr_tree::Write;
use jr_types::{OnParentVersion, Registry};
use std::alloc::{AllocError, Global};

// The first checked-in node, in path order, that covers a node that the writes change; items with IGNORE are passed over.
pub(crate) fn first_frozen(
    alloc: Global,
    types: &Registry,
    old: &Edited<'_>,
    new: &Edited<'_>,
    writes: &[Write],
) -> Result<Option<Path>, AllocError>
    requires { new.now ≡ applied None old.now writes.now }
    ensures { IfOk result (λ found. found ≡ first_of (frozen_over types.now old.now writes.now)) }
{
    let changed = changed_heeded(alloc, types, old, new, writes)?;
    let covers = covers_frozen(alloc, old, &changed)?;
    first_in_order(&covers)
}

// The first lock, in path order, that covers a node that the writes change, and whose owner is not among the tokens.
pub(crate) fn first_locked(
    alloc: Global,
    old: &Edited<'_>,
    writes: &[Write],
    tokens: &[String],
) -> Result<Option<Path>, AllocError>
    ensures { IfOk result
        (λ found. found ≡ first_of (locked_over old.now (map string_bytes tokens.now) writes.now)) }
{
    let changed = changed(alloc, writes)?;
    let covers = covers_locked(alloc, old, &changed, tokens)?;
    first_in_order(&covers)
}

// The nodes that the writes change.
fn changed(alloc: Global, writes: &[Write]) -> Result<Vec<Path>, AllocError>
    ensures { IfOk result (λ paths. paths.items ≡ flat_map changed_by writes.now) }
{
    let mut paths = Vec::new(alloc);
    for write in writes {
        push_changed(&mut paths, write)?;
    }
    Ok(paths)
}

// The nodes that the writes change of which the definition isn't IGNORE.
fn changed_heeded(
    alloc: Global,
    types: &Registry,
    old: &Edited<'_>,
    new: &Edited<'_>,
    writes: &[Write],
) -> Result<Vec<Path>, AllocError>
    ensures { IfOk result (λ paths. paths.items ≡ flat_map changed_by
        (filter (λ w. not (is_ignored types.now old.now new.now w)) writes.now)) }
{
    let mut paths = Vec::new(alloc);
    for write in writes {
        if !is_ignored(types, old, new, write)? {
            push_changed(&mut paths, write)?;
        }
    }
    Ok(paths)
}

fn push_changed(paths: &mut Vec<Path>, write: &Write) -> Result<(), AllocError>
    ensures { OnOk result (paths.new.items ≡ paths.old.items ++ changed_by write.now) }
{
    match write {
        Write::Here(path) | Write::Gone(path) => push_with_parent(paths, path),
        Write::Put(path, _, _) | Write::Unset(path, _) => push_path(paths, path),
    }
}

fn push_with_parent(paths: &mut Vec<Path>, path: &Path) -> Result<(), AllocError>
    ensures { OnOk result
        (paths.new.items ≡ paths.old.items ++ path.now ∷ option_to_list (parent_of path.now)) }
{
    push_path(paths, path)?;
    if let Some(parent) = path.parent()? {
        paths.push(parent)?;
    }
    Ok(())
}

fn push_path(paths: &mut Vec<Path>, path: &Path) -> Result<(), AllocError>
    ensures { OnOk result (paths.new.items ≡ paths.old.items ++ path.now ∷ []) }
{
    paths.push(path.copy()?)?;
    Ok(())
}

// The checked-in nodes that cover these.
fn covers_frozen(alloc: Global, tree: &Edited<'_>, paths: &[Path]) -> Result<Vec<Path>, AllocError>
    ensures { IfOk result (λ covers. covers.items ≡ filter_map (frozen_by tree.now) paths.now) }
{
    let mut covers = Vec::new(alloc);
    for path in paths {
        if let Some(cover) = frozen_by(alloc, tree, path)? {
            covers.push(cover)?;
        }
    }
    Ok(covers)
}

// The locks without a token that cover these.
fn covers_locked(
    alloc: Global,
    tree: &Edited<'_>,
    paths: &[Path],
    tokens: &[String],
) -> Result<Vec<Path>, AllocError>
    ensures { IfOk result (λ covers. covers.items
        ≡ filter_map (λ p. locked_by tree.now p (map string_bytes tokens.now)) paths.now) }
{
    let mut covers = Vec::new(alloc);
    for path in paths {
        if let Some(cover) = locked_by(alloc, tree, path, tokens)? {
            covers.push(cover)?;
        }
    }
    Ok(covers)
}

// The first of these in path order.
fn first_in_order(paths: &[Path]) -> Result<Option<Path>, AllocError>
    ensures { IfOk result (λ first. first ≡ first_of (in_path_order paths.now)) }
{
    match least(paths) {
        Some(path) => Ok(Some(path.copy()?)),
        None => Ok(None),
    }
}

fn least(paths: &[Path]) -> Option<&Path>
    ensures { option_copied result ≡ first_of (in_path_order paths.now) }
{
    let mut least = None;
    for at in (0..paths.len()).rev() {
        least = Some(earlier(&paths[at], least));
    }
    least
}

// Whichever stands first in path order.
fn earlier<'a>(path: &'a Path, known: Option<&'a Path>) -> &'a Path
    ensures { Some result.now ≡ sooner path.now (option_copied known.entry) }
{
    match known {
        Some(known) => { if path.cmp(known).is_lt() { path } else { known } }
        None => path,
    }
}

// Whether the definition of the written item has IGNORE: by the types after the edit for what comes, by those before for
// what goes.
fn is_ignored(
    types: &Registry,
    old: &Edited<'_>,
    new: &Edited<'_>,
    write: &Write,
) -> Result<bool, AllocError>
    ensures { IfOk result (λ answer. answer ≡ is_ignored types.now old.now new.now write.now) }
{
    match write {
        Write::Here(path) => is_ignored_child(types, new, path),
        Write::Gone(path) => is_ignored_child(types, old, path),
        Write::Put(path, name, _) => is_ignored_property(types, new, path, name),
        Write::Unset(path, name) => is_ignored_property(types, old, path, name),
    }
}

fn is_ignored_child(types: &Registry, tree: &Edited<'_>, path: &Path) -> Result<bool, AllocError>
    ensures { IfOk result (λ answer. answer ≡ is_ignored_child types.now tree.now path.now) }
{
    match (path.parent()?, path.last_name()) {
        (Some(parent), Some(name)) => is_child_ignored(types, tree, &parent, name),
        _ => Ok(false),
    }
}

fn is_child_ignored(
    types: &Registry,
    tree: &Edited<'_>,
    parent: &Path,
    name: &Name,
) -> Result<bool, AllocError>
    ensures { IfOk result (λ answer. answer ≡ child_passes (is_opv opv.Ignore) types.now
        (node_types tree.now parent.now) name.now (child_at tree.now parent.now name.now)) }
{
    let child = parent.child(name)?;
    match (tree.get(parent), tree.get(&child)) {
        (Some(node), Some(child)) => match types.child_def(node, name, child)? {
            Some(def) => Ok(is_ignore(def.opv)),
            None => Ok(false),
        },
        _ => Ok(false),
    }
}

fn is_ignored_property(
    types: &Registry,
    tree: &Edited<'_>,
    path: &Path,
    name: &Name,
) -> Result<bool, AllocError>
    ensures { IfOk result (λ answer. answer ≡ property_passes (is_opv opv.Ignore) types.now
        (node_types tree.now path.now) name.now (property_at tree.now path.now name.now)) }
{
    match (tree.get(path), tree.property(path, name)) {
        (Some(node), Some(property)) => match types.prop_def(node, name, property)? {
            Some(def) => Ok(is_ignore(def.opv)),
            None => Ok(false),
        },
        _ => Ok(false),
    }
}

fn is_ignore(attribute: OnParentVersion) -> bool
    ensures { result ≡ is_opv opv.Ignore attribute }
{
    match attribute {
        OnParentVersion::Ignore => true,
        _ => false,
    }
}
