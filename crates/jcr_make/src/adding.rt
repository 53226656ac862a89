// Adding a node.
ghost use Rattle.std.specs.Prelude.{◌≡◌, IfErr, IfOk, None, Ok, OnOk};
ghost use Rattle.std.specs.Option.{option_copied};
ghost use Rattle.jr_items.specs.Refusals.{IsTheRefusal, out_of_memory};
ghost use Rattle.jr_overlay.specs.Overlays.{sighted};
ghost use Rattle.jcr_write.specs.Places.{IsDueRefusal, above, path_refusal};
ghost use Rattle.jcr_make.specs.Commands.{add_made, chosen_below, chosen_type, completed_new, registered, type_below, type_by_default};
ghost use Rattle.jcr_fill.specs.Makings.{making};
ghost use Rattle.jcr_fill.specs.Steps.{and_then};

use jcr_fill::{check_type, complete_new};
use jcr_write::{above, check_path};
use jr_items::{breaks_rule, no_item, taken};
use jr_overlay::Draft;
use jr_path::{DeepCopy, Name, Path};
use jr_tree::{Node, Refusal, Who};
use jr_types::Registry;
use std::alloc::{AllocError, Global};

/// Adds a node of a type, or else of the default one by the types of the node above, with what belongs to it (JSR 283,
/// 10.4.1 Adding a Node). Refused, in this order: 15 of the path; 4 of the repository's own; 1 with the node above;
/// 2 where a node stands there; 3 with the type; 4 where no default type is given.
#[tactic(auto, using(jcr_write::proofs::Due::refused_due, jcr_fill::proofs::Due::passed_ok, jcr_fill::proofs::Due::passed_err))]
pub fn add(
    alloc: Global,
    types: &Registry,
    who: &Who,
    draft: &mut Draft<'_>,
    ids: &mut u32,
    path: &Path,
    node_type: Option<&Name>,
) -> Result<(), Refusal>
    ensures sight { draft.new.sight ≡ draft.old.sight }
    ensures ok { OnOk result (add_made types.now who.now (sighted draft.old.sight) path.now
        (option_copied node_type.entry) (making draft.old.steps ids.old)
        ≡ Ok (making draft.new.steps ids.new)) }
    ensures err { IfErr result (IsDueRefusal (add_made types.now who.now
        (sighted draft.old.sight) path.now (option_copied node_type.entry)
        (making draft.old.steps ids.old))) }
{
    match check_path(alloc, path) {
        Ok(()) => add_within(alloc, types, who, draft, ids, path, node_type),
        Err(refusal) => Err(refusal),
    }
}

// Adds a node at a path that a command may name.
#[tactic(auto, using(jcr_fill::proofs::Due::after_ok, jcr_fill::proofs::Due::after_err, jcr_fill::proofs::Due::first_err))]
fn add_within(
    alloc: Global,
    types: &Registry,
    who: &Who,
    draft: &mut Draft<'_>,
    ids: &mut u32,
    path: &Path,
    node_type: Option<&Name>,
) -> Result<(), Refusal>
    ensures sight { draft.new.sight ≡ draft.old.sight }
    ensures ok { OnOk result (and_then (chosen_type types.now (sighted draft.old.sight)
        draft.old.steps path.now (option_copied node_type.entry)) (completed_new types.now who.now
        (sighted draft.old.sight) path.now (making draft.old.steps ids.old))
        ≡ Ok (making draft.new.steps ids.new)) }
    ensures err { IfErr result (IsDueRefusal (and_then (chosen_type types.now
        (sighted draft.old.sight) draft.old.steps path.now (option_copied node_type.entry))
        (completed_new types.now who.now (sighted draft.old.sight) path.now
        (making draft.old.steps ids.old)))) }
{
    match chosen_type(alloc, types, draft, path, node_type) {
        Ok(name) => complete_new(alloc, types, who, draft, ids, path, &name),
        Err(refusal) => Err(refusal),
    }
}

/// The type of a node that is added: the one that is named, or else the default one by the types of the node above.
pub(crate) fn chosen_type(
    alloc: Global,
    types: &Registry,
    draft: &Draft<'_>,
    path: &Path,
    node_type: Option<&Name>,
) -> Result<Name, Refusal>
    ensures ok { IfOk result (λ name. chosen_type types.now (sighted draft.now.sight)
        draft.now.steps path.now (option_copied node_type.entry) ≡ Ok name) }
    ensures err { IfErr result (IsDueRefusal (chosen_type types.now (sighted draft.now.sight)
        draft.now.steps path.now (option_copied node_type.entry))) }
{
    match above(alloc, path) {
        Ok(upper) => chosen_under(alloc, types, draft, path, &upper, node_type),
        Err(AllocError) => Err(Refusal::memory(alloc)),
    }
}

fn chosen_under(
    alloc: Global,
    types: &Registry,
    draft: &Draft<'_>,
    path: &Path,
    upper: &Path,
    node_type: Option<&Name>,
) -> Result<Name, Refusal>
    requires { upper.now ≡ above path.now }
    ensures ok { IfOk result (λ name. chosen_type types.now (sighted draft.now.sight)
        draft.now.steps path.now (option_copied node_type.entry) ≡ Ok name) }
    ensures err { IfErr result (IsDueRefusal (chosen_type types.now (sighted draft.now.sight)
        draft.now.steps path.now (option_copied node_type.entry))) }
{
    match draft.node(upper) {
        Some(parent) => chosen_below(alloc, types, draft, path, upper, parent, node_type),
        None => Err(no_item(alloc, upper)),
    }
}

fn chosen_below(
    alloc: Global,
    types: &Registry,
    draft: &Draft<'_>,
    path: &Path,
    upper: &Path,
    parent: &Node,
    node_type: Option<&Name>,
) -> Result<Name, Refusal>
    requires { upper.now ≡ above path.now }
    ensures ok { IfOk result (λ name. chosen_below types.now (sighted draft.now.sight)
        draft.now.steps path.now (option_copied node_type.entry) parent.now ≡ Ok name) }
    ensures err { IfErr result (IsDueRefusal (chosen_below types.now (sighted draft.now.sight)
        draft.now.steps path.now (option_copied node_type.entry) parent.now)) }
{
    if draft.node(path).is_some() {
        return Err(taken(alloc, path));
    }
    match node_type {
        Some(name) => registered(alloc, types, name),
        None => type_by_default(alloc, types, path, upper, parent),
    }
}

// The default type, where there is one.
fn type_by_default(
    alloc: Global,
    types: &Registry,
    path: &Path,
    upper: &Path,
    parent: &Node,
) -> Result<Name, Refusal>
    requires { upper.now ≡ above path.now }
    ensures ok { IfOk result (λ name. type_by_default types.now path.now
        (type_below types.now parent.now path.now) ≡ Ok name) }
    ensures err { IfErr result (IsDueRefusal (type_by_default types.now path.now
        (type_below types.now parent.now path.now))) }
{
    match type_below(types, parent, path) {
        Ok(Some(name)) => registered(alloc, types, name),
        Ok(None) => Err(breaks_rule(alloc, 0, upper, path.last_name())),
        Err(AllocError) => Err(Refusal::memory(alloc)),
    }
}

// The default type of a child at the path, by the types of the node above.
fn type_below<'a>(
    types: &'a Registry,
    parent: &Node,
    path: &Path,
) -> Result<Option<&'a Name>, AllocError>
    ensures { IfOk result (λ found. option_copied found
        ≡ type_below types.now parent.now path.now) }
{
    match path.last_name() {
        Some(name) => types.default_type(parent, name),
        None => Ok(None),
    }
}

// The type, which somebody registered.
#[tactic(auto, using(jcr_write::proofs::Due::refused_due, jcr_fill::proofs::Due::passed_value, jcr_write::proofs::Due::memory_result))]
fn registered(alloc: Global, types: &Registry, name: &Name) -> Result<Name, Refusal>
    ensures ok { IfOk result (λ found. registered types.now name.now ≡ Ok found) }
    ensures err { IfErr result (IsDueRefusal (registered types.now name.now)) }
{
    match check_type(alloc, types, name) {
        Ok(()) => copied(alloc, name),
        Err(refusal) => Err(refusal),
    }
}

fn copied(alloc: Global, name: &Name) -> Result<Name, Refusal>
    ensures ok { IfOk result (λ copy. copy ≡ name.now) }
    ensures err { IfErr result (λ refusal. refusal ≡ out_of_memory) }
{
    match name.copy() {
        Ok(copy) => Ok(copy),
        Err(AllocError) => Err(Refusal::memory(alloc)),
    }
}
