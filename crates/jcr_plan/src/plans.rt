// The plan of an edit: the edit with all its marks, where it may be committed.
ghost use Rattle.std.specs.Prelude.{◌≡◌, None, IfErr, IfOk, map};
ghost use Rattle.std.specs.String.{string_bytes};
ghost use Rattle.jr_tree.specs.Edits.{IsProper, applied};
ghost use Rattle.jr_tree.specs.Trees.{IsTree};
ghost use Rattle.jr_items.specs.Refusals.{IsTheRefusal, out_of_memory};
ghost use Rattle.jcr_marks.specs.Marks.{marks_of};
ghost use Rattle.jcr_plan.specs.Checked.{IsAsAssured, refusal_by};
ghost use Rattle.jcr_plan.specs.Plans.{PlanOk};
ghost use Rattle.jcr_plan.specs.Refusals.{plan_refusal};

use crate::causes::{Assured, check_plan};
use jcr_marks::marks_between;
use jr_edited::Edited;
use jr_path::List;
use jr_tree::{Edit, Refusal, Tree, Write};
use jr_types::Registry;
use oak_clash::MarkAt;
use std::alloc::{AllocError, Global};

/// An edit that may be committed, and its marks, each once, in path order and at one path in the order of marks.
#[derive(Drop)]
pub struct Plan {
    pub edit: Edit,
    pub marks: List<MarkAt>,
}

/// The plan of an edit on a tree, by one who holds the tokens of locks: the edit with all its marks. Refused, in this order:
/// 8 with the checked-in node that covers a changed node (JSR 283, 15 Versioning), items with IGNORE aside; 7 with the lock
/// that does, whose owner is not among the tokens (17 Locking), of several the first in path order; 4 with the first rule of
/// node types that the tree after the edit breaks, by path, rule and item (3.7 Node Types); 9 with the first REFERENCE that
/// names no node of that tree, by path, then by name (3.8.2 Referential Integrity); 15 where that tree has more than 100,000
/// nodes. Want of memory may come in place of each. It goes over the whole tree.
pub fn plan_of(
    alloc: Global,
    types: &Registry,
    tree: &Tree,
    edit: Edit,
    tokens: &[String],
) -> Result<Plan, Refusal>
    ensures edit { IfOk result (λ plan. plan.edit ≡ edit) }
    ensures marks { IfOk result (λ plan. plan.marks ≡ marks_of tree.now edit.writes) }
    ensures accepted { IfOk result
        (λ plan. plan_refusal types.now tree.now (map string_bytes tokens.now) edit.writes ≡ None) }
    ensures refused { IfErr result
        (IsTheRefusal (plan_refusal types.now tree.now (map string_bytes tokens.now) edit.writes)) }
    // what may start is a plan
    ensures plan { IfOk result (λ plan. IsProper tree.now edit.writes
        → PlanOk types.now tree.now (map string_bytes tokens.now) edit.writes plan.marks) }
{
    let assured = Assured {
        typed: false,
        referring: false,
    };
    match marks_on(alloc, types, tree, &edit, tokens, assured) {
        Ok(marks) => Ok(Plan { edit, marks }),
        Err(refusal) => {
            drop(edit);
            Err(refusal)
        }
    }
}

/// The plan of an edit as `plan_of` gives it, by a caller that is assured of something of the tree before. Where the tree
/// meets the rules of its types, of the nodes of the tree after the edit only those are checked whose types, items, children
/// or children's types it changes. Where each REFERENCE names a node, the references are not gone over, unless the edit
/// removes a node with an identifier or writes an identifier, a REFERENCE or the primary type of an `nt:frozenNode`. So it
/// costs what the edit changes. The tree after the edit is lent by the caller. A law of this crate says that both calls answer
/// alike on a tree that is as the caller is assured.
pub fn plan_of_change(
    alloc: Global,
    types: &Registry,
    tree: &Tree,
    after: &Edited<'_>,
    edit: Edit,
    tokens: &[String],
    assured: Assured,
) -> Result<Plan, Refusal>
    requires { after.now ≡ applied None tree.now edit.writes }
    ensures edit { IfOk result (λ plan. plan.edit ≡ edit) }
    ensures marks { IfOk result (λ plan. plan.marks ≡ marks_of tree.now edit.writes) }
    ensures accepted { IfOk result (λ plan.
        refusal_by assured types.now tree.now (map string_bytes tokens.now) edit.writes ≡ None) }
    ensures refused { IfErr result (IsTheRefusal
        (refusal_by assured types.now tree.now (map string_bytes tokens.now) edit.writes)) }
    // what may start on a tree that is as the caller is assured is a plan
    ensures plan { IfOk result (λ plan. IsTree tree.now → IsAsAssured assured types.now tree.now
        → IsProper tree.now edit.writes
        → PlanOk types.now tree.now (map string_bytes tokens.now) edit.writes plan.marks) }
{
    match planned_marks(alloc, types, tree, after, &edit, tokens, assured) {
        Ok(marks) => Ok(Plan { edit, marks }),
        Err(refusal) => {
            drop(edit);
            Err(refusal)
        }
    }
}

// The marks of an edit that may be committed.
fn marks_on(
    alloc: Global,
    types: &Registry,
    tree: &Tree,
    edit: &Edit,
    tokens: &[String],
    assured: Assured,
) -> Result<List<MarkAt>, Refusal>
    ensures marks { IfOk result (λ marks. marks ≡ marks_of tree.now edit.now.writes) }
    ensures ok { IfOk result (λ marks. refusal_by assured types.now tree.now
        (map string_bytes tokens.now) edit.now.writes ≡ None) }
    ensures err { IfErr result (IsTheRefusal
        (refusal_by assured types.now tree.now (map string_bytes tokens.now) edit.now.writes)) }
{
    match Edited::of(alloc, tree, edit) {
        Ok(after) => {
            let marks = planned_marks(alloc, types, tree, &after, edit, tokens, assured);
            drop(after);
            marks
        }
        Err(AllocError) => Err(Refusal::memory(alloc)),
    }
}

// The same, with the tree after the edit at hand.
fn planned_marks(
    alloc: Global,
    types: &Registry,
    tree: &Tree,
    after: &Edited<'_>,
    edit: &Edit,
    tokens: &[String],
    assured: Assured,
) -> Result<List<MarkAt>, Refusal>
    requires { after.now ≡ applied None tree.now edit.now.writes }
    ensures marks { IfOk result (λ marks. marks ≡ marks_of tree.now edit.now.writes) }
    ensures ok { IfOk result (λ marks. refusal_by assured types.now tree.now
        (map string_bytes tokens.now) edit.now.writes ≡ None) }
    ensures err { IfErr result (IsTheRefusal
        (refusal_by assured types.now tree.now (map string_bytes tokens.now) edit.now.writes)) }
{
    checked_marks(
        alloc,
        types,
        &Edited::unchanged(alloc, tree),
        after,
        edit,
        tokens,
        assured,
    )
}

fn checked_marks(
    alloc: Global,
    types: &Registry,
    old: &Edited<'_>,
    new: &Edited<'_>,
    edit: &Edit,
    tokens: &[String],
    assured: Assured,
) -> Result<List<MarkAt>, Refusal>
    requires { new.now ≡ applied None old.now edit.now.writes }
    ensures marks { IfOk result (λ marks. marks ≡ marks_of old.now edit.now.writes) }
    ensures ok { IfOk result (λ marks.
        refusal_by assured types.now old.now (map string_bytes tokens.now) edit.now.writes ≡ None) }
    ensures err { IfErr result (IsTheRefusal
        (refusal_by assured types.now old.now (map string_bytes tokens.now) edit.now.writes)) }
{
    let writes = edit.writes.as_slice();
    check_plan(alloc, types, old, new, writes, tokens, assured)?;
    marks_or_memory(alloc, old, new, writes)
}

// The marks, or want of memory as a refusal.
fn marks_or_memory(
    alloc: Global,
    old: &Edited<'_>,
    new: &Edited<'_>,
    writes: &[Write],
) -> Result<List<MarkAt>, Refusal>
    requires { new.now ≡ applied None old.now writes.now }
    ensures marks { IfOk result (λ marks. marks ≡ marks_of old.now writes.now) }
    ensures err { IfErr result (λ r. r ≡ out_of_memory) }
{
    match marks_between(alloc, old, new, writes) {
        Ok(marks) => Ok(marks),
        Err(AllocError) => Err(Refusal::memory(alloc)),
    }
}
