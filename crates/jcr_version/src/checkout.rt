// The edit that checks a node out.
ghost use Rattle.std.specs.Prelude.{◌≡◌, ◌++◌, ◌∷◌, [], cond, filter, map, option_to_list, IfErr, IfOk, OnOk};
ghost use Rattle.jr_value.specs.declared.value.Kind.TheVariants as kind;
ghost use Rattle.jr_value.specs.declared.value.Property.TheVariants.{Many};
ghost use Rattle.jr_value.specs.declared.value.Value.TheVariants as value;
ghost use Rattle.jr_tree.specs.declared.edit.Write.TheVariants.{Put};
ghost use Rattle.jr_tree.specs.Trees.{property_at};
ghost use Rattle.jr_items.specs.Items.{is_checked_in, one_reference};
ghost use Rattle.jr_items.specs.Names.{base_version, predecessors};
ghost use Rattle.jr_items.specs.Refusals.{out_of_memory};
ghost use Rattle.jcr_lock.specs.Locks.{IsDue, IsDueRefusal};
ghost use Rattle.jcr_lock.specs.Needed.{is_needed};
ghost use Rattle.jcr_version.specs.Edits.{checkout_edit, checkout_writes};

use crate::checkin::{is_checked_in, push_references};
use crate::writes::{needed, push_property};
use jcr_frozen::{find_history, one_reference};
use jr_items::OwnName;
use jr_path::{List, Path};
use jr_tree::{Edit, Refusal, Tree, Write};
use jr_value::{Property, Value};
use std::alloc::{AllocError, Global};

/// The edit that checks a node out (JSR 283, 15.3 Check-Out): its base version is then its one predecessor. Of a node that
/// isn't checked in the edit is empty. Refused, in this order: the path, as every version command; 12 where the node isn't
/// versionable.
#[tactic(auto, using(crate::proofs::Due::due_else, crate::proofs::Due::else_refused, crate::proofs::Due::else_memory))]
pub fn checkout_edit(alloc: Global, tree: &Tree, path: &Path) -> Result<Edit, Refusal>
    ensures ok { IfOk result (IsDue (checkout_edit tree.now path.now)) }
    ensures err { IfErr result (IsDueRefusal (checkout_edit tree.now path.now)) }
{
    match find_history(alloc, "checkout", tree, path) {
        Ok(_) => checked_out(alloc, tree, path),
        Err(refusal) => Err(refusal),
    }
}

// The edit of a versionable node.
fn checked_out(alloc: Global, tree: &Tree, path: &Path) -> Result<Edit, Refusal>
    ensures ok { IfOk result (λ edit. edit.writes ≡ cond (is_checked_in tree.now path.now) (filter (is_needed tree.now) (checkout_writes tree.now path.now)) []) }
    ensures err { IfErr result (λ refusal. refusal ≡ out_of_memory) }
{
    match checkout_writes(alloc, tree, path) {
        Ok(edit) => Ok(edit),
        Err(AllocError) => Err(Refusal::memory(alloc)),
    }
}

// The writes that change something, none where the node isn't checked in.
fn checkout_writes(alloc: Global, tree: &Tree, path: &Path) -> Result<Edit, AllocError>
    ensures { IfOk result (λ edit. edit.writes ≡ cond (is_checked_in tree.now path.now) (filter (is_needed tree.now) (checkout_writes tree.now path.now)) []) }
{
    let mut writes = List::new(alloc);
    if is_checked_in(alloc, tree, path)? {
        push_checked_out(&mut writes, alloc, tree, path)?;
        return Ok(needed(tree, writes));
    }
    Ok(Edit { writes })
}

fn push_checked_out(
    writes: &mut List<Write>,
    alloc: Global,
    tree: &Tree,
    path: &Path,
) -> Result<(), AllocError>
    ensures { OnOk result (writes.new ≡ writes.old ++ checkout_writes tree.now path.now) }
{
    let flag = Property::Single(Value::Boolean(true));
    push_property(writes, alloc, path, OwnName::IsCheckedOut, flag)?;
    push_predecessor(writes, alloc, tree, path)
}

// The base version is the one predecessor.
fn push_predecessor(
    writes: &mut List<Write>,
    alloc: Global,
    tree: &Tree,
    path: &Path,
) -> Result<(), AllocError>
    ensures { OnOk result (writes.new ≡ writes.old ++ Put path.now predecessors (Many kind.Reference (map value.Reference (option_to_list (one_reference (property_at tree.now path.now base_version))))) ∷ []) }
{
    let base = OwnName::BaseVersion.name(alloc)?;
    match one_reference(tree.property(path, &base)) {
        Some(number) => push_references(writes, alloc, path, OwnName::Predecessors, &[number]),
        None => push_references(writes, alloc, path, OwnName::Predecessors, &[]),
    }
}
