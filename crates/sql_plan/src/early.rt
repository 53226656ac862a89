// What a condition asks of one selector alone, asked before the join.
ghost use Rattle.std.specs.Prelude.{◌≡◌, ◌∷◌, ◌++◌, ◌||◌, [], IfOk, IsTrue, OnOk, map, true};
ghost use Rattle.std.specs.FinMap.{is_sorted};
ghost use Rattle.std.specs.List.{AllByRecursion, list_all, list_any};
ghost use Rattle.std.specs.Map.Iter.{deref, deref_pair};
ghost use Rattle.std.specs.Option.{option_copied};
ghost use Rattle.jr_path.specs.Names.{path_cmp};
ghost use Rattle.sql_query.specs.declared.query.JoinKind.TheVariants.{LeftOuter};
ghost use Rattle.sql_eval.specs.Conditions.{holds};
ghost use Rattle.sql_eval.specs.Joins.{type_properties};
ghost use Rattle.sql_plan.specs.Early.{asked_early, asked_in, asks_only, early_nodes, is_right_outer, kind_is, looks_only, only_asked, passes};

use crate::range::range_of;
use jr_path::Name;
use sql_eval::{Spot, Tuple, has_type, holds};
use sql_query::{Condition, Join, JoinKind, Operand};
use std::alloc::{AllocError, Global};

/// The parts that a condition joins by AND and that ask of this selector alone. There are none where an outer join
/// may put a tuple without a node in the place of one that a part refuses: where the selector itself is joined so,
/// or a later join is.
pub(crate) fn asked_early<'q>(
    alloc: Global,
    filter: Option<&'q Condition>,
    selector: usize,
    is_outer: bool,
    later: &[Join],
) -> Result<Vec<&'q Condition>, AllocError>
    ensures { IfOk result (λ parts. map deref parts.items ≡ asked_early (option_copied filter.entry) selector is_outer later.now) }
{
    let mut parts = Vec::new(alloc);
    if let Some(condition) = filter {
        if !(is_outer || some_right_outer(later)) {
            add_asked(&mut parts, condition, selector)?;
        }
    }
    Ok(parts)
}

/// Whether a join keeps the tuples that have no partner.
pub(crate) fn is_left_outer(join: &Join) -> bool
    ensures { result ≡ kind_is LeftOuter join.now.kind }
{
    matches!(join.kind, JoinKind::LeftOuter)
}

fn is_right_outer(join: &Join) -> bool
    ensures { result ≡ is_right_outer join.now }
{
    matches!(join.kind, JoinKind::RightOuter)
}

fn some_right_outer(joins: &[Join]) -> bool
    ensures { result ≡ list_any is_right_outer joins.now }
{
    let mut left = joins;
    while let [join, rest @ ..] = left {
        if is_right_outer(join) {
            return true;
        }
        left = rest;
    }
    false
}

fn add_asked<'q>(
    parts: &mut Vec<&'q Condition>,
    condition: &'q Condition,
    selector: usize,
) -> Result<(), AllocError>
    ensures { OnOk result (map deref parts.new.items ≡ map deref parts.old.items ++ asked_in selector condition.now) }
{
    match condition {
        Condition::And(first, second) => {
            add_asked(parts, first, selector)?;
            add_asked(parts, second, selector)
        }
        other => add_if_only(parts, other, selector),
    }
}

fn add_if_only<'q>(
    parts: &mut Vec<&'q Condition>,
    condition: &'q Condition,
    selector: usize,
) -> Result<(), AllocError>
    ensures { OnOk result (map deref parts.new.items ≡ map deref parts.old.items ++ only_asked selector condition.now) }
{
    if asks_only(condition, selector) {
        parts.push(condition)?;
    }
    Ok(())
}

// Whether a condition asks of this selector alone.
fn asks_only(condition: &Condition, selector: usize) -> bool
    ensures { result ≡ asks_only selector condition.now }
{
    match condition {
        Condition::Not(inner) => asks_only(inner, selector),
        Condition::And(first, second) => asks_only(first, selector) && asks_only(second, selector),
        Condition::Or(first, second) => asks_only(first, selector) && asks_only(second, selector),
        Condition::Has(property) => property.selector as usize == selector,
        Condition::Compare(operand, _, _) => looks_only(operand, selector),
        Condition::Same(own, _) => *own as usize == selector,
        Condition::Child(own, _) => *own as usize == selector,
        Condition::Descendant(own, _) => *own as usize == selector,
    }
}

// Whether an operand looks at the node of this selector.
fn looks_only(operand: &Operand, selector: usize) -> bool
    ensures { result ≡ looks_only selector operand.now }
{
    match operand {
        Operand::Property(property) => property.selector as usize == selector,
        Operand::Length(property) => property.selector as usize == selector,
        Operand::Name(own) => *own as usize == selector,
        Operand::LocalName(own) => *own as usize == selector,
        Operand::Lower(inner) => looks_only(inner, selector),
        Operand::Upper(inner) => looks_only(inner, selector),
    }
}

/// The nodes of a selector: those of its types of which what is asked early holds, in path order.
pub(crate) fn nodes_of<'a>(
    alloc: Global,
    nodes: &[Spot<'a>],
    properties: &[Name],
    set: &[Name],
    parts: &[&Condition],
    selector: usize,
) -> Result<Vec<Spot<'a>>, AllocError>
    requires properties { properties.now ≡ type_properties }
    requires sorted { IsTrue (is_sorted path_cmp (map deref_pair nodes.now)) }
    requires only { AllByRecursion (λ c. asks_only selector c ≡ true) (map deref parts.now) }
    ensures { IfOk result (λ spots. map deref_pair spots.items ≡ early_nodes (map deref_pair nodes.now) set.now (map deref parts.now) selector) }
{
    let mut spots = Vec::new(alloc);
    for spot in range_of(nodes, parts) {
        add_if_asked(alloc, &mut spots, properties, set, parts, selector, *spot)?;
    }
    Ok(spots)
}

// A node, if it is of one of the types and what is asked early of its selector holds.
fn add_if_asked<'a>(
    alloc: Global,
    spots: &mut Vec<Spot<'a>>,
    properties: &[Name],
    set: &[Name],
    parts: &[&Condition],
    selector: usize,
    spot: Spot<'a>,
) -> Result<(), AllocError>
    requires { properties.now ≡ type_properties }
    ensures { OnOk result (map deref_pair spots.new.items ≡ map deref_pair spots.old.items ++ early_nodes (deref_pair spot.entry ∷ []) set.now (map deref parts.now) selector) }
{
    if !has_type(properties, set, spot.1) {
        return Ok(());
    }
    if passes(alloc, parts, selector, spot)? {
        spots.push(spot)?;
    }
    Ok(())
}

// Whether all that is asked early of a selector holds of a node.
fn passes(
    alloc: Global,
    parts: &[&Condition],
    selector: usize,
    spot: Spot<'_>,
) -> Result<bool, AllocError>
    ensures { IfOk result (λ so. so ≡ passes (map deref parts.now) selector (deref_pair spot.entry)) }
{
    if parts.is_empty() {
        return Ok(true);
    }
    let tuple = Tuple::behind(alloc, selector, spot)?;
    all_hold(alloc, parts, &tuple)
}

fn all_hold(alloc: Global, parts: &[&Condition], tuple: &Tuple<'_>) -> Result<bool, AllocError>
    ensures { IfOk result (λ so. so ≡ list_all (holds tuple.now) (map deref parts.now)) }
{
    let mut left = parts;
    while let [part, rest @ ..] = left {
        if !holds(alloc, tuple, part)? {
            return Ok(false);
        }
        left = rest;
    }
    Ok(true)
}
