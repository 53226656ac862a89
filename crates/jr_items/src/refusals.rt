// Why commands are refused: a call for each cause. Each answers the refusal itself, or want of memory.
ghost use Rattle.std.specs.Prelude.{◌≡◌, ◌∷◌, [], IfOk, OnErr};
ghost use Rattle.std.specs.Option.{option_copied, option_map_or};
ghost use Rattle.jr_tree.specs.declared.shared.Datum.TheVariants as datum;
ghost use Rattle.jr_items.specs.Refusals.{IsOrMemory, breaks_rule, checked_in, clash_refusal, dangling_refusal, locked, no_checkpoint, no_identifier, no_item, no_query, no_type, out_of_memory, over_limit, own_item_rule, own_rule, refusal, refusal_at, taken, unsupported, wrong_kind};

use jr_path::{DeepCopy, Item, List, Name, Path, Text};
use jr_rev::Revision;
use jr_tree::{Datum, Refusal};
use jr_value::Kind;
use std::alloc::{AllocError, Global};

/// There is no such item.
pub fn no_item(alloc: Global, path: &Path) -> Refusal
    ensures { IsOrMemory (no_item path.now) result }
{
    or_memory(alloc, of_path(alloc, 1, path))
}

/// A node stands there, or has that identifier.
pub fn taken(alloc: Global, path: &Path) -> Refusal
    ensures { IsOrMemory (taken path.now) result }
{
    or_memory(alloc, of_path(alloc, 2, path))
}

/// Nobody registered the type.
pub fn no_type(alloc: Global, name: &Name) -> Refusal
    ensures { IsOrMemory (no_type name.now) result }
{
    or_memory(alloc, of_name(alloc, 3, name))
}

/// A rule of the node's types fails, at one of its items (JSR 283, 3.7 Node Types).
pub fn breaks_rule(alloc: Global, rule: u8, node: &Path, item: Option<&Name>) -> Refusal
    ensures { IsOrMemory (breaks_rule rule node.now (option_copied item.entry)) result }
{
    or_memory(alloc, of_rule(alloc, rule, node, item))
}

/// A rule of the command's own fails at a node.
pub fn own_rule(alloc: Global, node: &Path) -> Refusal
    ensures { IsOrMemory (own_rule node.now) result }
{
    or_memory(alloc, of_rule(alloc, 0, node, None))
}

/// A rule of the command's own fails at an item of a node.
pub fn own_item_rule(alloc: Global, node: &Path, item: &Name) -> Refusal
    ensures { IsOrMemory (own_item_rule node.now item.now) result }
{
    or_memory(alloc, of_rule(alloc, 0, node, Some(item)))
}

/// A value of the first kind is asked for, and one of the second is given.
pub fn wrong_kind(alloc: Global, asked: Kind, given: Kind) -> Refusal
    ensures { IsOrMemory (wrong_kind asked given) result }
{
    or_memory(
        alloc,
        of_two(alloc, 5, Datum::Kind(asked), Datum::Kind(given)),
    )
}

/// Nothing has that identifier.
pub fn no_identifier(alloc: Global, id: &str) -> Refusal
    ensures { IsOrMemory (no_identifier id.now) result }
{
    or_memory(alloc, of_text(alloc, 6, id))
}

/// A lock whose token is not held (JSR 283, 17 Locking).
pub fn locked(alloc: Global, path: &Path) -> Refusal
    ensures { IsOrMemory (locked path.now) result }
{
    or_memory(alloc, of_path(alloc, 7, path))
}

/// A node is checked in, or a version's item stands in the way (JSR 283, 15 Versioning).
pub fn checked_in(alloc: Global, path: &Path) -> Refusal
    ensures { IsOrMemory (checked_in path.now) result }
{
    or_memory(alloc, of_path(alloc, 8, path))
}

/// A reference names no node (JSR 283, 3.8.2 Referential Integrity).
pub fn dangling(alloc: Global, item: &Item) -> Refusal
    ensures { IsOrMemory (dangling_refusal item.now) result }
{
    or_memory(alloc, of_item(alloc, 9, item))
}

/// Another commit, made or under way, clashes in the item.
pub fn clash(alloc: Global, item: &Item, other: Revision) -> Refusal
    ensures { IsOrMemory (clash_refusal item.now other) result }
{
    or_memory(alloc, of_clash(alloc, item, other))
}

/// The text is no query from that byte on.
pub fn no_query(alloc: Global, offset: usize) -> Refusal
    ensures { IsOrMemory (no_query offset) result }
{
    or_memory(alloc, of_one(alloc, 11, Datum::Number(offset as u64)))
}

/// The command has not what it needs.
pub fn unsupported(alloc: Global, command: &str) -> Refusal
    ensures { IsOrMemory (unsupported command.now) result }
{
    or_memory(alloc, of_text(alloc, 12, command))
}

/// There is no such checkpoint.
pub fn no_checkpoint(alloc: Global, id: &str) -> Refusal
    ensures { IsOrMemory (no_checkpoint id.now) result }
{
    or_memory(alloc, of_text(alloc, 13, id))
}

/// A quantity would pass its limit.
pub fn over_limit(alloc: Global, what: &str, most: u64) -> Refusal
    ensures { IsOrMemory (over_limit what.now most) result }
{
    or_memory(alloc, of_limit(alloc, what, most))
}

// The refusal, or want of memory where it wasn't made.
fn or_memory(alloc: Global, made: Result<Refusal, AllocError>) -> Refusal
    ensures ok { IfOk made (λ refusal. result ≡ refusal) }
    ensures err { OnErr made (result ≡ out_of_memory) }
{
    match made {
        Ok(refusal) => refusal,
        Err(AllocError) => Refusal::memory(alloc),
    }
}

fn of_one(alloc: Global, number: u8, named: Datum) -> Result<Refusal, AllocError>
    ensures { IfOk result (λ made. made ≡ refusal number (named ∷ [])) }
{
    let mut parts = List::new(alloc);
    parts.push(named)?;
    Ok(Refusal { number, parts })
}

fn of_two(alloc: Global, number: u8, named: Datum, also: Datum) -> Result<Refusal, AllocError>
    ensures { IfOk result (λ made. made ≡ refusal number (named ∷ also ∷ [])) }
{
    let mut parts = List::new(alloc);
    parts.push(named)?;
    parts.push(also)?;
    Ok(Refusal { number, parts })
}

fn of_path(alloc: Global, number: u8, path: &Path) -> Result<Refusal, AllocError>
    ensures { IfOk result (λ made. made ≡ refusal_at number path.now) }
{
    of_one(alloc, number, Datum::Path(path.copy()?))
}

fn of_name(alloc: Global, number: u8, name: &Name) -> Result<Refusal, AllocError>
    ensures { IfOk result (λ made. made ≡ refusal number (datum.Name name.now ∷ [])) }
{
    of_one(alloc, number, Datum::Name(name.copy()?))
}

fn of_text(alloc: Global, number: u8, text: &str) -> Result<Refusal, AllocError>
    ensures { IfOk result (λ made. made ≡ refusal number (datum.Text text.now ∷ [])) }
{
    of_one(alloc, number, Datum::Text(Text::copy_of(alloc, text)?))
}

fn of_item(alloc: Global, number: u8, item: &Item) -> Result<Refusal, AllocError>
    ensures { IfOk result (λ made. made ≡ refusal number (datum.Item item.now ∷ [])) }
{
    of_one(alloc, number, Datum::Item(item.copy()?))
}

fn of_clash(alloc: Global, item: &Item, other: Revision) -> Result<Refusal, AllocError>
    ensures { IfOk result (λ made. made ≡ clash_refusal item.now other) }
{
    of_two(alloc, 10, Datum::Item(item.copy()?), Datum::Revision(other))
}

fn of_limit(alloc: Global, what: &str, most: u64) -> Result<Refusal, AllocError>
    ensures { IfOk result (λ made. made ≡ over_limit what.now most) }
{
    let what = Datum::Text(Text::copy_of(alloc, what)?);
    of_two(alloc, 15, what, Datum::Number(most))
}

fn of_rule(alloc: Global, rule: u8, node: &Path, item: Option<&Name>) -> Result<Refusal, AllocError>
    ensures { IfOk result (λ made. made ≡ breaks_rule rule node.now (option_copied item.entry)) }
{
    let item = named_item(item)?;
    let mut parts = List::new(alloc);
    parts.push(Datum::Number(rule as u64))?;
    parts.push(Datum::Path(node.copy()?))?;
    parts.push(item)?;
    Ok(Refusal { number: 4, parts })
}

// What a refusal names for an item, or for none.
fn named_item(item: Option<&Name>) -> Result<Datum, AllocError>
    ensures { IfOk result (λ named. named ≡ option_map_or datum.Name (option_copied item.entry) datum.Null) }
{
    match item {
        Some(name) => Ok(Datum::Name(name.copy()?)),
        None => Ok(Datum::Null),
    }
}
