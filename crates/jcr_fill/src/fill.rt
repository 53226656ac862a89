// Properties that are made of themselves.
ghost use Rattle.std.specs.Prelude.{◌≡◌, ◌+◌, ◌||◌, ◌<◌, ◌%◌, ◌^◌, IfErr, IfOk, None, Ok, OnOk, Some, cond, is_some, map};
ghost use Rattle.std.specs.Option.{option_copied};
ghost use Rattle.std.specs.String.{string_bytes};
ghost use Rattle.jr_items.specs.Items.{property_of};
ghost use Rattle.jcr_write.specs.Places.{IsDueRefusal, with_property};
ghost use Rattle.jcr_fill.specs.Filled.{by_default, filled, given, identified, is_date, is_user, lacking, next_identifier, next_text, user_name, with_given, with_made, with_own_property};
ghost use Rattle.jr_value.specs.Values.{kind_of};
ghost use Rattle.jr_value.specs.declared.value.Property.TheVariants.{Many, Single};
ghost use Rattle.jr_value.specs.declared.value.Value.TheVariants as value;

use jcr_ref::{MAX_IDS, identifier, identifiers_are_uuids, latest_date};
use jr_items::{OwnName, over_limit};
use jr_path::{DeepCopy, Name, Text};
use jr_tree::{Node, Refusal, Who};
use jr_types::PropDef;
use jr_value::{Property, Value};
use std::alloc::{AllocError, Global};

/// A node in the making, and how many identifiers the session has drawn.
#[derive(Drop)]
pub struct Filling {
    pub node: Node,
    pub ids: u32,
}

/// Puts each property into a node that these definitions make of themselves and the node lacks, in their order (JSR
/// 283, 3.7.2.3 Auto-Created). Refused with 15 where an identifier is over the limit.
pub(crate) fn fill(
    alloc: Global,
    who: &Who,
    filling: &mut Filling,
    defs: &[&PropDef],
) -> Result<(), Refusal>
    ensures ok { OnOk result (filled who.now (map (λ d. d.now) defs.now) filling.old
        ≡ Ok filling.new) }
    ensures err { IfErr result (IsDueRefusal
        (filled who.now (map (λ d. d.now) defs.now) filling.old)) }
{
    for def in defs {
        fill_by(alloc, who, filling, def)?;
    }
    Ok(())
}

// Puts the property that a definition makes of itself, where the node lacks it.
fn fill_by(alloc: Global, who: &Who, filling: &mut Filling, def: &PropDef) -> Result<(), Refusal>
    ensures ok { OnOk result (with_own_property who.now def.now filling.old ≡ Ok filling.new) }
    ensures err { IfErr result (IsDueRefusal (with_own_property who.now def.now filling.old)) }
{
    match lacking(&filling.node, def) {
        Some(name) => fill_named(alloc, who, filling, def, name),
        None => Ok(()),
    }
}

// The name of a property that a definition makes of itself, where the node lacks it.
fn lacking<'a>(node: &Node, def: &'a PropDef) -> Option<&'a Name>
    ensures { option_copied result ≡ lacking node.now def.now }
{
    if !def.autocreated {
        return None;
    }
    match &def.name {
        Some(name) => unless_there(node, name),
        None => None,
    }
}

// The name, where the node has no property of it.
fn unless_there<'a>(node: &Node, name: &'a Name) -> Option<&'a Name>
    ensures { option_copied result ≡ cond (is_some (property_of node.now name.now)) None
        (Some name.now) }
{
    if node.props.contains(name) {
        None
    } else {
        Some(name)
    }
}

// Puts an autocreated property of that name.
fn fill_named(
    alloc: Global,
    who: &Who,
    filling: &mut Filling,
    def: &PropDef,
    name: &Name,
) -> Result<(), Refusal>
    ensures ok { OnOk result (with_made who.now def.now name.now filling.old ≡ Ok filling.new) }
    ensures err { IfErr result (IsDueRefusal (with_made who.now def.now name.now filling.old)) }
{
    if OwnName::Uuid.is(name) {
        return identify(alloc, who, filling, name);
    }
    match give(alloc, who, filling, def, name) {
        Ok(()) => Ok(()),
        Err(AllocError) => Err(Refusal::memory(alloc)),
    }
}

// Puts the session's next identifier, which then counts as drawn.
fn identify(alloc: Global, who: &Who, filling: &mut Filling, name: &Name) -> Result<(), Refusal>
    ensures ok { OnOk result (identified who.now name.now filling.old ≡ Ok filling.new) }
    ensures err { IfErr result (IsDueRefusal (identified who.now name.now filling.old)) }
{
    if filling.ids >= MAX_IDS {
        return Err(over_limit(alloc, "ids", 16_777_215));
    }
    match draw(alloc, who, filling, name) {
        Ok(()) => Ok(()),
        Err(AllocError) => Err(Refusal::memory(alloc)),
    }
}

fn draw(alloc: Global, who: &Who, filling: &mut Filling, name: &Name) -> Result<(), AllocError>
    requires { filling.old.ids < 16777215 }
    ensures node { OnOk result (filling.new.node ≡ with_property filling.old.node name.now
        (next_identifier who.now filling.old.ids)) }
    ensures ids { OnOk result (filling.new.ids ≡ filling.old.ids + 1) }
{
    let id = next_identifier(alloc, who, filling.ids)?;
    filling.node.props.put(name.copy()?, id)?;
    filling.ids += 1;
    Ok(())
}

// The session's next identifier as a property.
fn next_identifier(alloc: Global, who: &Who, ids: u32) -> Result<Property, AllocError>
    requires { ids < 16777215 }
    ensures { IfOk result (λ property. property ≡ next_identifier who.now ids) }
{
    let text = Text::of(next_text(alloc, who, ids)?);
    Ok(Property::Single(Value::Str(text)))
}

/// The text of the identifier that a session draws next, after so many.
pub fn next_text(alloc: Global, who: &Who, ids: u32) -> Result<String, AllocError>
    ensures { IfOk result (λ text. string_bytes text ≡ next_text who.now ids) }
{
    identifiers_are_uuids();
    identifier(alloc, session_of(who), count_after(ids))
}

// The count of the next identifier, of which identifiers have the last 24 bits.
fn count_after(ids: u32) -> u32
    ensures { result % 2 ^ 24 ≡ (ids + 1) % 2 ^ 24 }
{
    ids.wrapping_add(1)
}

// The number of the session, of which identifiers have the last 24 bits.
fn session_of(who: &Who) -> u32
    ensures { result % 2 ^ 24 ≡ (who.now.session + who.now.earlier) % 2 ^ 24 }
{
    who.session.wrapping_add(who.earlier)
}

// Puts an autocreated property that draws no identifier, where it is one.
fn give(
    alloc: Global,
    who: &Who,
    filling: &mut Filling,
    def: &PropDef,
    name: &Name,
) -> Result<(), AllocError>
    ensures { OnOk result (filling.new
        ≡ with_given name.now (given who.now name.now def.now) filling.old) }
{
    match given(alloc, who, name, def)? {
        Some(property) => filling.node.props.put(name.copy()?, property),
        None => Ok(()),
    }
}

// What an autocreated property is that draws no identifier.
fn given(
    alloc: Global,
    who: &Who,
    name: &Name,
    def: &PropDef,
) -> Result<Option<Property>, AllocError>
    ensures { IfOk result (λ found. found ≡ given who.now name.now def.now) }
{
    if is_date(name) {
        let date = latest_date(&who.base);
        return Ok(Some(Property::Single(Value::Date(date))));
    }
    if is_user(name) {
        return user(alloc, who);
    }
    by_default(def)
}

fn is_date(name: &Name) -> bool
    ensures { result ≡ is_date name.now }
{
    OwnName::Created.is(name) || OwnName::LastModified.is(name)
}

fn is_user(name: &Name) -> bool
    ensures { result ≡ is_user name.now }
{
    OwnName::CreatedBy.is(name) || OwnName::LastModifiedBy.is(name)
}

// The session as a user.
fn user(alloc: Global, who: &Who) -> Result<Option<Property>, AllocError>
    ensures { IfOk result (λ found. found ≡ Some (Single (value.Str (user_name who.now)))) }
{
    let session = who.session;
    let text = Text::of(format!(in alloc; "s{session}")?);
    Ok(Some(Property::Single(Value::Str(text))))
}

// The property that the default values of a definition make, where it has any.
fn by_default(def: &PropDef) -> Result<Option<Property>, AllocError>
    ensures { IfOk result (λ found. found ≡ by_default def.now.multiple def.now.defaults) }
{
    match def.defaults.as_slice() {
        [] => Ok(None),
        [first, ..] => Ok(Some(first_or_all(def, first)?)),
    }
}

// All default values, or the first of them.
fn first_or_all(def: &PropDef, first: &Value) -> Result<Property, AllocError>
    ensures { IfOk result (λ property. property ≡ cond def.now.multiple
        (Many (kind_of first.now) def.now.defaults) (Single first.now)) }
{
    if def.multiple {
        Ok(Property::Many(first.kind(), def.defaults.copy()?))
    } else {
        Ok(Property::Single(first.copy()?))
    }
}
