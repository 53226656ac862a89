// Why a plan is refused, cause by cause.
ghost use Rattle.std.specs.Prelude.{◌≡◌, None, codes, not, option_map, IfErr, IfOk, OnOk, map};
ghost use Rattle.std.specs.String.{string_bytes};
ghost use Rattle.jr_tree.specs.Edits.{applied};
ghost use Rattle.jr_items.specs.Items.{first_of};
ghost use Rattle.jr_items.specs.Refusals.{IsTheRefusal, checked_in, dangling_refusal as dangling_refusal, locked, over_limit, when};
ghost use Rattle.jcr_plan.specs.Checked.{are_passed_over, dangling_by, refusal_by};
ghost use Rattle.jcr_plan.specs.Plans.{has_few_nodes};
ghost use Rattle.jcr_plan.specs.Refusals.{frozen_over, locked_over};

use crate::changed::{first_frozen, first_locked};
use crate::referring::may_dangle;
use crate::typed::check_types;
use jcr_ref::dangling;
use jr_edited::Edited;
use jr_items::{checked_in, locked, over_limit};
use jr_path::Item;
use jr_tree::{Refusal, Write};
use jr_types::Registry;
use std::alloc::{AllocError, Global};

/// The most nodes of the tree after an edit.
pub const MAX_NODES: usize = 100_000;

/// What the caller is assured of, of the tree before an edit: of the tree after it only that is checked which the edit
/// touches.
#[derive(Clone, Copy, PartialEq, Eq)]
pub struct Assured {
    /// Each node meets the rules of its types.
    pub typed: bool,
    /// Each REFERENCE names a node, but for those of an `nt:frozenNode`.
    pub referring: bool,
}

// The first cause, in the order 8, 7, 4, 9, 15.
pub(crate) fn check_plan(
    alloc: Global,
    types: &Registry,
    old: &Edited<'_>,
    new: &Edited<'_>,
    writes: &[Write],
    tokens: &[String],
    assured: Assured,
) -> Result<(), Refusal>
    requires { new.now ≡ applied None old.now writes.now }
    ensures ok { OnOk result
        (refusal_by assured types.now old.now (map string_bytes tokens.now) writes.now ≡ None) }
    ensures err { IfErr result (IsTheRefusal
        (refusal_by assured types.now old.now (map string_bytes tokens.now) writes.now)) }
{
    check_checked_out(alloc, types, old, new, writes)?;
    check_unlocked(alloc, old, writes, tokens)?;
    check_types(alloc, types, new, writes, assured)?;
    check_references(alloc, old, new, writes, assured)?;
    check_size(alloc, new)?;
    Ok(())
}

// 8: a checked-in node covers a node that the writes change.
fn check_checked_out(
    alloc: Global,
    types: &Registry,
    old: &Edited<'_>,
    new: &Edited<'_>,
    writes: &[Write],
) -> Result<(), Refusal>
    requires { new.now ≡ applied None old.now writes.now }
    ensures ok { OnOk result
        (option_map checked_in (first_of (frozen_over types.now old.now writes.now)) ≡ None) }
    ensures err { IfErr result (IsTheRefusal
        (option_map checked_in (first_of (frozen_over types.now old.now writes.now)))) }
{
    match first_frozen(alloc, types, old, new, writes) {
        Ok(Some(path)) => Err(checked_in(alloc, &path)),
        Ok(None) => Ok(()),
        Err(AllocError) => Err(Refusal::memory(alloc)),
    }
}

// 7: a lock without a token covers a node that the writes change.
fn check_unlocked(
    alloc: Global,
    old: &Edited<'_>,
    writes: &[Write],
    tokens: &[String],
) -> Result<(), Refusal>
    ensures ok { OnOk result (option_map locked
        (first_of (locked_over old.now (map string_bytes tokens.now) writes.now)) ≡ None) }
    ensures err { IfErr result (IsTheRefusal (option_map locked
        (first_of (locked_over old.now (map string_bytes tokens.now) writes.now)))) }
{
    match first_locked(alloc, old, writes, tokens) {
        Ok(Some(path)) => Err(locked(alloc, &path)),
        Ok(None) => Ok(()),
        Err(AllocError) => Err(Refusal::memory(alloc)),
    }
}

// 9: a reference names no node.
fn check_references(
    alloc: Global,
    old: &Edited<'_>,
    new: &Edited<'_>,
    writes: &[Write],
    assured: Assured,
) -> Result<(), Refusal>
    ensures ok { OnOk result
        (option_map dangling_refusal (dangling_by assured old.now new.now writes.now) ≡ None) }
    ensures err { IfErr result (IsTheRefusal
        (option_map dangling_refusal (dangling_by assured old.now new.now writes.now))) }
{
    match first_dangling(alloc, old, new, writes, assured) {
        Ok(Some(item)) => Err(jr_items::dangling(alloc, &item)),
        Ok(None) => Ok(()),
        Err(AllocError) => Err(Refusal::memory(alloc)),
    }
}

// The first reference that names no node, where the references are gone over.
fn first_dangling(
    alloc: Global,
    old: &Edited<'_>,
    new: &Edited<'_>,
    writes: &[Write],
    assured: Assured,
) -> Result<Option<Item>, AllocError>
    ensures { IfOk result (λ item. item ≡ dangling_by assured old.now new.now writes.now) }
{
    if are_passed_over(alloc, old, new, writes, assured)? {
        return Ok(None);
    }
    let tree = new.tree()?;
    let item = dangling(alloc, &tree);
    drop(tree);
    item
}

// Whether the references need not be gone over.
fn are_passed_over(
    alloc: Global,
    old: &Edited<'_>,
    new: &Edited<'_>,
    writes: &[Write],
    assured: Assured,
) -> Result<bool, AllocError>
    ensures { IfOk result (λ answer. answer ≡ are_passed_over assured old.now new.now writes.now) }
{
    if !assured.referring {
        return Ok(false);
    }
    Ok(!may_dangle(alloc, old, new, writes)?)
}

// 15: there are too many nodes.
fn check_size(alloc: Global, tree: &Edited<'_>) -> Result<(), Refusal>
    ensures ok { OnOk result
        (when (not (has_few_nodes tree.now)) (over_limit (codes "nodes") 100000) ≡ None) }
    ensures err { IfErr result
        (IsTheRefusal (when (not (has_few_nodes tree.now)) (over_limit (codes "nodes") 100000))) }
{
    if tree.has_more_than(MAX_NODES) {
        return Err(over_limit(alloc, "nodes", MAX_NODES as u64));
    }
    Ok(())
}
