// What writing commands make of a view.
ghost use Rattle.std.specs.Prelude.{◌≡◌, [], true, Ok, IfErr, IfOk, OnOk};
ghost use Rattle.jr_overlay.specs.Overlays.{known_view, sighted};
ghost use Rattle.jcr_fill.specs.Makings.{making};
ghost use Rattle.jcr_view.specs.Outcomes.{is_writing, written_outcome};
ghost use Rattle.jcr_write.specs.Places.{IsDueRefusal};
ghost use Rattle.jcr_write.specs.Writes.{order_made, set_made};

use jcr_make::{add, tree};
use jcr_mixin::{mixin, set_type, unmixin};
use jcr_trans::Command;
use jcr_write::{move_to, order_before, remove, set, unset};
use jr_overlay::{Draft, Overlay, Sight};
use jr_part::Part;
use jr_path::{DeepCopy, Keyed, Name, Path};
use jr_tree::{Node, Refusal, Who};
use jr_types::Registry;
use jr_value::Property;
use std::alloc::{AllocError, Global};

/// What a command made: the nodes that it put or took away, and the identifiers drawn then.
#[derive(Drop)]
pub(crate) struct Made {
    pub steps: Keyed<Path, Option<Node>>,
    pub ids: u32,
}

/// What a writing command makes of a view in which nothing was made before.
pub(crate) fn make(
    alloc: Global,
    types: &Registry,
    who: &Who,
    part: &Part,
    overlay: &Overlay,
    command: &Command,
) -> Result<Made, Refusal>
    requires { is_writing command.now ≡ true }
    ensures ok { IfOk result (λ made. written_outcome types.now who.now (known_view part.now overlay.now)
        command.now (making [] who.now.ids) ≡ Ok (making made.steps made.ids)) }
    ensures err { IfErr result (IsDueRefusal (written_outcome types.now who.now
        (known_view part.now overlay.now) command.now (making [] who.now.ids))) }
{
    let mut ids = who.ids;
    let mut draft = Draft::new(alloc, Sight::new(part, overlay));
    match write(alloc, types, who, &mut draft, &mut ids, command) {
        Ok(()) => Ok(Made {
            steps: draft.into_steps(),
            ids,
        }),
        Err(refusal) => Err(refusal),
    }
}

// A writing command in a draft in which nothing was made before.
#[tactic(auto, using(crate::proofs::Drawn::none_drawn, crate::proofs::Drawn::none_drawn_refused))]
fn write(
    alloc: Global,
    types: &Registry,
    who: &Who,
    draft: &mut Draft<'_>,
    ids: &mut u32,
    command: &Command,
) -> Result<(), Refusal>
    requires writing { is_writing command.now ≡ true }
    requires first { draft.old.steps ≡ [] }
    ensures ok { OnOk result (written_outcome types.now who.now (sighted draft.old.sight) command.now
        (making draft.old.steps ids.old) ≡ Ok (making draft.new.steps ids.new)) }
    ensures err { IfErr result (IsDueRefusal (written_outcome types.now who.now
        (sighted draft.old.sight) command.now (making draft.old.steps ids.old))) }
{
    match command {
        Command::Add(path, node_type) => {
            add(alloc, types, who, draft, ids, path, node_type.as_ref())
        }
        Command::Tree(path, nodes) => tree(alloc, types, who, draft, ids, path, nodes.as_slice()),
        Command::Set(path, name, value) => set_copy(alloc, types, draft, path, name, value),
        Command::Unset(path, name) => unset(alloc, types, draft, path, name),
        Command::Remove(path) => remove(alloc, types, draft, path),
        Command::Move(from, to) => move_to(alloc, draft, from, to),
        Command::Mixin(path, name) => mixin(alloc, types, who, draft, ids, path, name),
        Command::Unmixin(path, name) => unmixin(alloc, types, draft, path, name),
        Command::SetType(path, name) => set_type(alloc, types, who, draft, ids, path, name),
        Command::OrderBefore(path, before) => { order(alloc, types, draft, path, before) }
        _ => unreachable!(),
    }
}

// Sets a copy of a property.
fn set_copy(
    alloc: Global,
    types: &Registry,
    draft: &mut Draft<'_>,
    path: &Path,
    name: &Name,
    value: &Property,
) -> Result<(), Refusal>
    ensures ok { OnOk result (set_made types.now (sighted draft.old.sight) draft.old.steps path.now
        name.now value.now ≡ Ok draft.new.steps) }
    ensures err { IfErr result (IsDueRefusal (set_made types.now (sighted draft.old.sight)
        draft.old.steps path.now name.now value.now)) }
{
    match value.copy() {
        Ok(value) => set(alloc, types, draft, path, name, value),
        Err(AllocError) => Err(Refusal::memory(alloc)),
    }
}

// Orders a node before another, or last.
fn order(
    alloc: Global,
    types: &Registry,
    draft: &mut Draft<'_>,
    path: &Path,
    before: &Option<Name>,
) -> Result<(), Refusal>
    requires { draft.old.steps ≡ [] }
    ensures ok { OnOk result (order_made types.now (sighted draft.old.sight) draft.old.steps
        path.now before.now ≡ Ok draft.new.steps) }
    ensures err { IfErr result (IsDueRefusal (order_made types.now (sighted draft.old.sight)
        draft.old.steps path.now before.now)) }
{
    order_before(alloc, types, draft, path, before.as_ref())
}
