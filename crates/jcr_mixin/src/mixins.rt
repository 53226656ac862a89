// Giving a node a mixin.
ghost use Rattle.std.specs.Prelude.{◌≡◌, ◌∷◌, ◌++◌, [], IfErr, IfOk, None, Ok, OnOk, Some, is_some, map, not, option_and_then};
ghost use Rattle.std.specs.List.{filter_map};
ghost use Rattle.std.specs.Option.{option_copied};
ghost use Rattle.jr_value.specs.declared.value.Value.TheVariants as value;
ghost use Rattle.jr_items.specs.Names.{mixin_types, uuid};
ghost use Rattle.jr_items.specs.Items.{first_some, many_names, name_in};
ghost use Rattle.jr_items.specs.Refusals.{IsOrMemory, IsTheRefusal, breaks_rule, out_of_memory, own_item_rule, when};
ghost use Rattle.jr_types.specs.Rules.{is_mixin};
ghost use Rattle.jr_overlay.specs.Overlays.{sighted};
ghost use Rattle.jcr_write.specs.Places.{IsDueRefusal, unless_refused};
ghost use Rattle.jcr_mixin.specs.Histories.{history_by, mixins_with, may_be_versioned, mixed, mixin_made, mixin_put, mixin_refusal, mixing, place_mixing, version_refusal};
ghost use Rattle.jcr_fill.specs.Makings.{making};

use crate::history::{begin_by, history_for};
use crate::unmix::{lists_mixin, with_mixins};
use jcr_fill::{check_type, complete};
use jcr_write::check_place;
use jr_items::{OwnName, breaks_rule, one_text, own_item_rule};
use jr_overlay::Draft;
use jr_path::{DeepCopy, List, Name, Path};
use jr_tree::{Node, Refusal, Who};
use jr_types::Registry;
use jr_value::{Property, Value};
use std::alloc::{AllocError, Global};

/// Gives a node a mixin, with what belongs to it (JSR 283, 10.10.3 Assigning Mixin Node Types); with
/// `mix:versionable` the history of its versions begins (3.13 Versioning Model), or is used where it is there by the
/// node's identifier. Nothing changes where the node has the mixin. Refused as every command by its path; 3 with the
/// name; 4, rule 2, where it is no mixin; with `mix:versionable` 4 where the node's `jcr:uuid` is no name; 15 where an
/// identifier is over the limit.
#[tactic(auto, using(jcr_fill::proofs::Due::after_ok, jcr_fill::proofs::Due::after_err, jcr_fill::proofs::Due::first_err))]
pub fn mixin(
    alloc: Global,
    types: &Registry,
    who: &Who,
    draft: &mut Draft<'_>,
    ids: &mut u32,
    path: &Path,
    name: &Name,
) -> Result<(), Refusal>
    ensures sight { draft.new.sight ≡ draft.old.sight }
    ensures ok { OnOk result (mixin_made types.now who.now (sighted draft.old.sight) path.now
        name.now (making draft.old.steps ids.old) ≡ Ok (making draft.new.steps ids.new)) }
    ensures err { IfErr result (IsDueRefusal (mixin_made types.now who.now
        (sighted draft.old.sight) path.now name.now (making draft.old.steps ids.old))) }
{
    match place_mixing(alloc, types, draft, path, name) {
        Ok(Some(node)) => put_mixing(alloc, types, who, draft, ids, path, name, node),
        Ok(None) => Ok(()),
        Err(refusal) => Err(refusal),
    }
}

// Puts a node that gets a mixin, with all that belongs to it.
#[tactic(auto, using(jcr_fill::proofs::Due::after_ok, jcr_fill::proofs::Due::after_err, jcr_fill::proofs::Due::first_err))]
fn put_mixing(
    alloc: Global,
    types: &Registry,
    who: &Who,
    draft: &mut Draft<'_>,
    ids: &mut u32,
    path: &Path,
    name: &Name,
    node: Node,
) -> Result<(), Refusal>
    ensures sight { draft.new.sight ≡ draft.old.sight }
    ensures ok { OnOk result (mixin_put types.now who.now (sighted draft.old.sight) path.now
        name.now node (making draft.old.steps ids.old) ≡ Ok (making draft.new.steps ids.new)) }
    ensures err { IfErr result (IsDueRefusal (mixin_put types.now who.now
        (sighted draft.old.sight) path.now name.now node (making draft.old.steps ids.old))) }
{
    match complete(alloc, types, who, draft, ids, path, node) {
        Ok(()) => begin_by(alloc, who, draft, ids, path, name),
        Err(refusal) => Err(refusal),
    }
}

// What the node at a place becomes by a mixin that it may have.
#[tactic(auto, using(jcr_write::proofs::Due::at_place_is, jcr_write::proofs::Due::place_err))]
fn place_mixing(
    alloc: Global,
    types: &Registry,
    draft: &Draft<'_>,
    path: &Path,
    name: &Name,
) -> Result<Option<Node>, Refusal>
    ensures ok { IfOk result (λ found. place_mixing types.now (sighted draft.now.sight)
        draft.now.steps path.now name.now ≡ Ok found) }
    ensures err { IfErr result (IsDueRefusal (place_mixing types.now (sighted draft.now.sight)
        draft.now.steps path.now name.now)) }
{
    match check_place(alloc, draft, path) {
        Ok(node) => mixing_by(alloc, types, node, path, name),
        Err(refusal) => Err(refusal),
    }
}

#[tactic(auto, using(jcr_write::proofs::Due::refused_due, jcr_fill::proofs::Due::passed_value, jcr_write::proofs::Due::memory_due))]
fn mixing_by(
    alloc: Global,
    types: &Registry,
    node: &Node,
    path: &Path,
    name: &Name,
) -> Result<Option<Node>, Refusal>
    ensures ok { IfOk result (λ found.
        unless_refused (mixin_refusal types.now path.now node.now name.now)
        (Ok (mixing node.now name.now)) ≡ Ok found) }
    ensures err { IfErr result (IsDueRefusal
        (unless_refused (mixin_refusal types.now path.now node.now name.now)
        (Ok (mixing node.now name.now)))) }
{
    match check_mixin(alloc, types, node, path, name) {
        Ok(()) => mixing_or_memory(alloc, node, name),
        Err(refusal) => Err(refusal),
    }
}

fn mixing_or_memory(alloc: Global, node: &Node, name: &Name) -> Result<Option<Node>, Refusal>
    ensures ok { IfOk result (λ found. found ≡ mixing node.now name.now) }
    ensures err { IfErr result (λ refusal. refusal ≡ out_of_memory) }
{
    match new_mixing(alloc, node, name) {
        Ok(mixing) => Ok(mixing),
        Err(AllocError) => Err(Refusal::memory(alloc)),
    }
}

// What is asked of a mixin, and of the node that gets it.
#[tactic(auto, using(jcr_write::proofs::Due::first_here, jcr_write::proofs::Due::rest_result, jcr_write::proofs::Due::rest_none))]
fn check_mixin(
    alloc: Global,
    types: &Registry,
    node: &Node,
    path: &Path,
    name: &Name,
) -> Result<(), Refusal>
    ensures ok { OnOk result (mixin_refusal types.now path.now node.now name.now ≡ None) }
    ensures err { IfErr result (IsTheRefusal
        (mixin_refusal types.now path.now node.now name.now)) }
{
    match check_type(alloc, types, name) {
        Ok(()) => check_kind(alloc, types, node, path, name),
        Err(refusal) => Err(refusal),
    }
}

#[tactic(auto, using(jcr_write::proofs::Due::first_here, jcr_write::proofs::Due::last_result, jcr_write::proofs::Due::last_none))]
fn check_kind(
    alloc: Global,
    types: &Registry,
    node: &Node,
    path: &Path,
    name: &Name,
) -> Result<(), Refusal>
    ensures ok { OnOk result (first_some (when (not (is_mixin types.now name.now))
        (breaks_rule 2 path.now (Some mixin_types)) ∷ version_refusal path.now node.now name.now
        ∷ []) ≡ None) }
    ensures err { IfErr result (IsTheRefusal (first_some (when (not (is_mixin types.now name.now))
        (breaks_rule 2 path.now (Some mixin_types)) ∷ version_refusal path.now node.now name.now
        ∷ []))) }
{
    match check_is_mixin(alloc, types, path, name) {
        Ok(()) => check_version(alloc, node, path, name),
        Err(refusal) => Err(refusal),
    }
}

fn check_is_mixin(alloc: Global, types: &Registry, path: &Path, name: &Name) -> Result<(), Refusal>
    ensures ok { OnOk result (when (not (is_mixin types.now name.now))
        (breaks_rule 2 path.now (Some mixin_types)) ≡ None) }
    ensures err { IfErr result (IsTheRefusal (when (not (is_mixin types.now name.now))
        (breaks_rule 2 path.now (Some mixin_types)))) }
{
    if types.is_mixin(name) {
        return Ok(());
    }
    match OwnName::MixinTypes.name(alloc) {
        Ok(item) => Err(breaks_rule(alloc, 2, path, Some(&item))),
        Err(AllocError) => Err(Refusal::memory(alloc)),
    }
}

// A node becomes versionable only where its identifier does for its history.
fn check_version(alloc: Global, node: &Node, path: &Path, name: &Name) -> Result<(), Refusal>
    ensures ok { OnOk result (version_refusal path.now node.now name.now ≡ None) }
    ensures err { IfErr result (IsTheRefusal (version_refusal path.now node.now name.now)) }
{
    if !OwnName::Versionable.is(name) {
        return Ok(());
    }
    match may_be_versioned(alloc, node) {
        Ok(true) => Ok(()),
        Ok(false) => Err(no_identifier(alloc, path)),
        Err(AllocError) => Err(Refusal::memory(alloc)),
    }
}

fn no_identifier(alloc: Global, path: &Path) -> Refusal
    ensures { IsOrMemory (own_item_rule path.now uuid) result }
{
    match OwnName::Uuid.name(alloc) {
        Ok(item) => own_item_rule(alloc, path, &item),
        Err(AllocError) => Refusal::memory(alloc),
    }
}

fn may_be_versioned(alloc: Global, node: &Node) -> Result<bool, AllocError>
    ensures { IfOk result (λ may. may ≡ may_be_versioned node.now) }
{
    let uuid = OwnName::Uuid.name(alloc)?;
    match node.props.get(&uuid) {
        Some(property) => has_place(alloc, one_text(Some(property))),
        None => Ok(true),
    }
}

// Whether a history may stand by the identifier.
fn has_place(alloc: Global, id: Option<&str>) -> Result<bool, AllocError>
    ensures { IfOk result (λ has. has
        ≡ is_some (option_and_then history_by (option_copied id.entry))) }
{
    let history = history_for(alloc, id)?;
    Ok(history.is_some())
}

fn new_mixing(alloc: Global, node: &Node, name: &Name) -> Result<Option<Node>, AllocError>
    ensures { IfOk result (λ found. found ≡ mixing node.now name.now) }
{
    if lists_mixin(alloc, node, name)? {
        return Ok(None);
    }
    Ok(Some(mixed(alloc, node, name)?))
}

// The node with one mixin more.
fn mixed(alloc: Global, node: &Node, name: &Name) -> Result<Node, AllocError>
    ensures { IfOk result (λ made. made ≡ mixed node.now name.now) }
{
    let types = OwnName::MixinTypes.name(alloc)?;
    let mixins = listing(alloc, node.props.get(&types), name)?;
    with_mixins(alloc, node, mixins)
}

// The list of mixins with one more at its end.
fn listing(
    alloc: Global,
    property: Option<&Property>,
    name: &Name,
) -> Result<List<Value>, AllocError>
    ensures { IfOk result (λ values. values ≡ mixins_with name.now (option_copied property.entry)) }
{
    let mut values = listed(alloc, property)?;
    values.push(Value::Name(name.copy()?))?;
    Ok(values)
}

fn listed(alloc: Global, property: Option<&Property>) -> Result<List<Value>, AllocError>
    ensures { IfOk result (λ values. values
        ≡ map value.Name (many_names (option_copied property.entry))) }
{
    match property {
        Some(Property::Many(_, values)) => names_among(alloc, values.as_slice()),
        _ => Ok(List::new(alloc)),
    }
}

fn names_among(alloc: Global, values: &[Value]) -> Result<List<Value>, AllocError>
    ensures { IfOk result (λ names. names ≡ map value.Name (filter_map name_in values.now)) }
{
    let mut names = List::new(alloc);
    for value in values {
        push_name(&mut names, value)?;
    }
    Ok(names)
}

fn push_name(names: &mut List<Value>, next: &Value) -> Result<(), AllocError>
    ensures { OnOk result (names.new
        ≡ names.old ++ map value.Name (filter_map name_in (next.now ∷ []))) }
{
    match next {
        Value::Name(name) => names.push(Value::Name(name.copy()?)),
        _ => Ok(()),
    }
}
