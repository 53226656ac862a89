// Which node breaks a rule of its types first, of all nodes or of those that an edit touches.
ghost use Rattle.std.specs.Prelude.{◌≡◌, List, [], None, cond, option_map, IfErr, IsFalse, IsTrue, OnOk, is_some, map};
ghost use Rattle.std.specs.Map.Iter.{deref_pair};
ghost use Rattle.jr_tree.specs.Trees.{node_at};
ghost use Rattle.jr_items.specs.Items.{first_of};
ghost use Rattle.jr_items.specs.Refusals.{IsTheRefusal};
ghost use Rattle.jr_rules.specs.Checking.{IsFirstOf};
ghost use Rattle.jr_rules.specs.Violations.{Violation, first_violation, violations_among, violations_at};
ghost use Rattle.jcr_plan.specs.Checked.{is_asked_in, violations_by, violations_in, violations_touched};
ghost use Rattle.jcr_plan.specs.Refusals.{type_refusal};

use crate::causes::Assured;
use crate::touched::Touched;
use jr_edited::Edited;
use jr_items::breaks_rule;
use jr_path::Path;
use jr_rules::{TypesOut, check, check_among};
use jr_tree::{Node, Refusal, Write};
use jr_types::Registry;
use std::alloc::{AllocError, Global};

// 4: a node breaks a rule of its types.
pub(crate) fn check_types(
    alloc: Global,
    types: &Registry,
    tree: &Edited<'_>,
    writes: &[Write],
    assured: Assured,
) -> Result<(), Refusal>
    ensures ok { OnOk result (option_map type_refusal
        (first_of (violations_by assured types.now tree.now writes.now)) ≡ None) }
    ensures err { IfErr result (IsTheRefusal (option_map type_refusal
        (first_of (violations_by assured types.now tree.now writes.now)))) }
{
    if assured.typed {
        return check_touched(alloc, types, tree, writes);
    }
    check_all(alloc, types, tree)
}

fn check_all(alloc: Global, types: &Registry, tree: &Edited<'_>) -> Result<(), Refusal>
    ensures ok { OnOk result (option_map type_refusal (first_violation types.now tree.now) ≡ None) }
    ensures err { IfErr result
        (IsTheRefusal (option_map type_refusal (first_violation types.now tree.now))) }
{
    match tree.under(&Path::root(alloc)) {
        Ok(nodes) => check_each(alloc, types, tree, &nodes),
        Err(AllocError) => Err(Refusal::memory(alloc)),
    }
}

// Checks each node of a tree.
fn check_each(
    alloc: Global,
    types: &Registry,
    tree: &Edited<'_>,
    nodes: &[(&Path, &Node)],
) -> Result<(), Refusal>
    requires { map deref_pair nodes.now ≡ tree.now }
    ensures ok { OnOk result (option_map type_refusal (first_violation types.now tree.now) ≡ None) }
    ensures err { IfErr result
        (IsTheRefusal (option_map type_refusal (first_violation types.now tree.now))) }
{
    for (path, _) in nodes {
        match check_node(alloc, types, tree, path) {
            Ok(()) => {}
            Err(refusal) => return Err(refusal),
        }
    }
    Ok(())
}

// Only nodes whose types, items, children or children's types the writes change are checked.
fn check_touched(
    alloc: Global,
    types: &Registry,
    tree: &Edited<'_>,
    writes: &[Write],
) -> Result<(), Refusal>
    ensures ok { OnOk result (option_map type_refusal
        (first_of (violations_touched writes.now types.now tree.now)) ≡ None) }
    ensures err { IfErr result (IsTheRefusal
        (option_map type_refusal (first_of (violations_touched writes.now types.now tree.now)))) }
{
    tree.in_order();
    match Touched::of(alloc, writes) {
        Ok(touched) => {
            let checked = check_those(alloc, types, tree, &touched);
            drop(touched);
            checked
        }
        Err(AllocError) => Err(Refusal::memory(alloc)),
    }
}

// Checks the touched nodes that stand in the tree.
fn check_those(
    alloc: Global,
    types: &Registry,
    tree: &Edited<'_>,
    touched: &Touched,
) -> Result<(), Refusal>
    ensures ok { OnOk result
        (option_map type_refusal (first_of (violations_in touched.now types.now tree.now)) ≡ None) }
    ensures err { IfErr result (IsTheRefusal
        (option_map type_refusal (first_of (violations_in touched.now types.now tree.now)))) }
{
    for (path, _) in touched.nodes.iter() {
        match check_if_there(alloc, types, tree, touched, path) {
            Ok(()) => {}
            Err(refusal) => return Err(refusal),
        }
    }
    Ok(())
}

fn check_if_there(
    alloc: Global,
    types: &Registry,
    tree: &Edited<'_>,
    touched: &Touched,
    path: &Path,
) -> Result<(), Refusal>
    ensures ok { OnOk result (cond (is_some (node_at tree.now path.now))
        (violations_among (is_asked_in touched.now path.now) types.now tree.now path.now) [] ≡ []) }
    ensures err { IfErr result
        (IsTheRefusal (option_map type_refusal (first_of (cond (is_some (node_at tree.now path.now))
        (violations_among (is_asked_in touched.now path.now) types.now tree.now path.now) [])))) }
{
    if !tree.has(path) {
        return Ok(());
    }
    check_one(alloc, types, tree, touched, path)
}

// Checks a touched node: all of it, or its properties and those of its children that are touched too.
fn check_one(
    alloc: Global,
    types: &Registry,
    tree: &Edited<'_>,
    touched: &Touched,
    path: &Path,
) -> Result<(), Refusal>
    requires { IsTrue (is_some (node_at tree.now path.now)) }
    ensures ok { OnOk result
        (violations_among (is_asked_in touched.now path.now) types.now tree.now path.now ≡ []) }
    ensures err { IfErr result (IsTheRefusal (option_map type_refusal
        (first_of (violations_among (is_asked_in touched.now path.now) types.now tree.now
        path.now)))) }
{
    if touched.renewed.has(path) {
        return check_node(alloc, types, tree, path);
    }
    check_part(alloc, types, tree, touched, path)
}

// Checks a node's properties, and those of its children that are touched too.
fn check_part(
    alloc: Global,
    types: &Registry,
    tree: &Edited<'_>,
    touched: &Touched,
    path: &Path,
) -> Result<(), Refusal>
    requires there { IsTrue (is_some (node_at tree.now path.now)) }
    requires part { IsFalse (is_some (node_at touched.now.renewed path.now)) }
    ensures ok { OnOk result
        (violations_among (is_asked_in touched.now path.now) types.now tree.now path.now ≡ []) }
    ensures err { IfErr result (IsTheRefusal (option_map type_refusal
        (first_of (violations_among (is_asked_in touched.now path.now) types.now tree.now
        path.now)))) }
{
    let names = match touched.nodes.children(path) {
        Ok(names) => names,
        Err(AllocError) => return Err(Refusal::memory(alloc)),
    };
    match check_among(types, tree, path, &names) {
        Ok(()) => Ok(()),
        Err(out) => Err(refused(alloc, out)),
    }
}

// Checks all of a node.
fn check_node(
    alloc: Global,
    types: &Registry,
    tree: &Edited<'_>,
    path: &Path,
) -> Result<(), Refusal>
    requires { IsTrue (is_some (node_at tree.now path.now)) }
    ensures ok { OnOk result (violations_at types.now tree.now path.now ≡ []) }
    ensures err { IfErr result (IsTheRefusal
        (option_map type_refusal (first_of (violations_at types.now tree.now path.now)))) }
{
    match check(types, tree, path) {
        Ok(()) => Ok(()),
        Err(out) => Err(refused(alloc, out)),
    }
}

// What is told of a rule that is broken.
fn refused(alloc: Global, out: TypesOut) -> Refusal
    ensures { (violations : List Violation) → IsFirstOf violations out
        → IsTheRefusal (option_map type_refusal (first_of violations)) result }
{
    match out {
        TypesOut::Violation { node, item, rule } => breaks_rule(alloc, rule, &node, Some(&item)),
        TypesOut::Memory => Refusal::memory(alloc),
    }
}
