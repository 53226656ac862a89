// Values and properties from their JSON.
ghost use Rattle.std.specs.Prelude.{◌≡◌, ◌==◌, ◌∷◌, ◌++◌, [], true, IfOk, IfErr, IsSome, List as Seq, None, Some, MatchBool, MatchOption, option_map, string_bytes};
ghost use Rattle.serde_json.specs.Data.{array, object, string};
ghost use Rattle.serde_json.specs.Find.{as_array, as_number};
ghost use Rattle.serde_json.specs.View.{view, members_view, items_view};
ghost use Rattle.jr_json.specs.Json.{no_values};
ghost use Rattle.jr_json.specs.Reading.{first_other, form_begun, only_member, tagged_kinds, AreValuesJson, IsMember, IsTagged, IsValueJson, IsPropertyJson, IsValueFault};
ghost use Rattle.jr_value.specs.Texts.{IsFound};
ghost use Rattle.jr_value.specs.Values.{kind_number, kind_of};
ghost use Rattle.jr_value.specs.Words.{kind_named};
ghost use Rattle.jr_value.specs.declared.value.Kind.{Kind};
ghost use Rattle.jr_value.specs.declared.value.Value.{Value};

use crate::fault::ValueFault;
use jr_path::{List, Text};
use jr_value::{Kind, Property, Value};
use serde_json::{Map, Value as Json};
use std::alloc::{AllocError, Global};

// The kinds whose values stand in an object behind the kind's word.
const TAGGED_KINDS: [Kind; 7] = [
    Kind::Binary,
    Kind::Date,
    Kind::Name,
    Kind::Path,
    Kind::Reference,
    Kind::WeakReference,
    Kind::Uri,
];

/// The property that a JSON value is. A text is a STRING, a whole number from -2^63 to 2^63 - 1 a LONG (as
/// `as_i64` reads it, so `-0`, `1.0` and `1e5` are none) and a truth value a BOOLEAN. An object of one member
/// is of the kind that the member's name says: `{"binary": text}` in the Base64 of RFC 4648 with padding,
/// `{"date": whole number}` in milliseconds, `{"name": text}`, `{"path": text}`, `{"reference": text}` and
/// `{"weakreference": text}` with a hyphenated identifier in either case of its digits, `{"uri": text}` with
/// any text. A list of one or more values of one kind has these values, and `{"empty": kind}`, by the kind's
/// lower-case word, has none. `ValueFormat` answers all other JSON, as `ValueFault` says.
pub fn read_property(alloc: Global, json: &Json) -> Result<Property, ValueFault>
    ensures value { IfOk result (IsPropertyJson (view json.now)) }
    ensures fault { IfErr result (IsValueFault (view json.now)) }
{
    match json {
        Json::Array(items) => list(alloc, items),
        Json::Object(members) => match kind_of_none(members) {
            Some(kind) => Ok(Property::Many(kind, List::new(alloc))),
            None => single(alloc, json),
        },
        _ => single(alloc, json),
    }
}

// The kind that a member of this name begins.
fn kind_of_tag(tag: &str) -> Option<Kind>
    ensures { result ≡ kind_named tagged_kinds tag.now }
{
    TAGGED_KINDS
        .iter()
        .copied()
        .find(|kind| kind.as_str() == tag)
}

// The one member of an object.
fn only_member(members: &Map<String, Json>) -> Option<(&String, &Json)>
    ensures { option_map (λ m. (string_bytes m.0.now, view m.1.now)) result ≡ only_member (members_view members.now.entries) }
{
    if members.len() != 1 {
        return None;
    }
    members.iter().next()
}

// The kind whose form the JSON begins, or STRING.
fn form_begun(json: &Json) -> Kind
    ensures { result ≡ form_begun (view json.now) }
{
    match json {
        Json::Number(_) => Kind::Long,
        Json::Bool(_) => Kind::Boolean,
        Json::Object(members) => match only_member(members) {
            Some((tag, _)) => kind_of_tag(tag.as_str()).unwrap_or(Kind::Str),
            None => Kind::Str,
        },
        _ => Kind::Str,
    }
}

// The value that stands behind the word of a kind, if it is one.
fn tagged(alloc: Global, kind: Kind, content: &Json) -> Result<Option<Value>, AllocError>
    ensures { IfOk result (IsFound (IsTagged kind (view content.now))) }
{
    match content {
        Json::Number(_) => Ok(tagged_number(kind, content)),
        Json::String(text) => tagged_text(alloc, kind, text.as_str()),
        _ => Ok(None),
    }
}

fn tagged_number(kind: Kind, content: &Json) -> Option<Value>
    requires { IsSome (as_number (view content.now)) }
    ensures { IsFound (IsTagged kind (view content.now)) result }
{
    match kind {
        Kind::Date => content.as_i64().map(Value::Date),
        _ => None,
    }
}

fn tagged_text(alloc: Global, kind: Kind, text: &str) -> Result<Option<Value>, AllocError>
    ensures { IfOk result (IsFound (IsTagged kind (string text.now))) }
{
    match kind {
        Kind::Str | Kind::Long | Kind::Date | Kind::Boolean => Ok(None),
        _ => Value::from_text(alloc, kind, text),
    }
}

// The value that the JSON is, if it is one.
fn value(alloc: Global, json: &Json) -> Result<Option<Value>, AllocError>
    ensures { IfOk result (IsFound (IsValueJson (view json.now))) }
{
    match json {
        Json::Null => Ok(None),
        Json::Bool(truth) => Ok(Some(Value::Boolean(*truth))),
        Json::Number(_) => Ok(json.as_i64().map(Value::Long)),
        Json::String(text) => string_value(alloc, text.as_str()),
        Json::Array(_) => Ok(None),
        Json::Object(members) => member(alloc, members),
    }
}

fn member(alloc: Global, members: &Map<String, Json>) -> Result<Option<Value>, AllocError>
    ensures { IfOk result (IsFound (IsMember (only_member (members_view members.now.entries)))) }
{
    match only_member(members) {
        Some((tag, content)) => named(alloc, tag.as_str(), content),
        None => Ok(None),
    }
}

// The value that a member of this name holds, if it is one.
fn named(alloc: Global, tag: &str, content: &Json) -> Result<Option<Value>, AllocError>
    ensures { IfOk result (IsFound (IsMember (Some (tag.now, view content.now)))) }
{
    match kind_of_tag(tag) {
        Some(kind) => tagged(alloc, kind, content),
        None => Ok(None),
    }
}

fn string_value(alloc: Global, text: &str) -> Result<Option<Value>, AllocError>
    ensures { IfOk result (IsFound (IsValueJson (string text.now))) }
{
    Ok(Some(Value::Str(Text::copy_of(alloc, text)?)))
}

// The list's values, if each item is one of this kind.
fn values(alloc: Global, items: &[Json], kind: Kind) -> Result<Option<List<Value>>, AllocError>
    ensures { IfOk result (λ found. MatchOption found
        ((xs : Seq Value) → ¬ AreValuesJson (items_view items.now) kind xs)
        (AreValuesJson (items_view items.now) kind)) }
{
    let mut values = List::new(alloc);
    for item in items {
        let found = put_value(alloc, &mut values, item, kind)?;
        if !found {
            return Ok(None);
        }
    }
    Ok(Some(values))
}

// Puts the value that the JSON is at the end, and says whether it is one of this kind.
fn put_value(
    alloc: Global,
    values: &mut List<Value>,
    json: &Json,
    kind: Kind,
) -> Result<bool, AllocError>
    ensures { IfOk result (λ found. MatchBool found
        ((x : Value) × (values.new ≡ values.old ++ x ∷ []) × IsValueJson (view json.now) x × (kind_of x ≡ kind))
        ((x : Value) → ¬ (IsValueJson (view json.now) x × (kind_of x ≡ kind)))) }
{
    match value_of_kind(alloc, json, kind)? {
        Some(value) => put(values, value),
        None => Ok(false),
    }
}

// Puts a value at the end, and says that it did.
fn put(values: &mut List<Value>, value: Value) -> Result<bool, AllocError>
    ensures { IfOk result (λ found. (found ≡ true) × (values.new ≡ values.old ++ value ∷ [])) }
{
    values.push(value)?;
    Ok(true)
}

fn value_of_kind(alloc: Global, json: &Json, kind: Kind) -> Result<Option<Value>, AllocError>
    ensures { IfOk result (IsFound (λ x. IsValueJson (view json.now) x × (kind_of x ≡ kind))) }
{
    if same_kind(form_begun(json), kind) {
        Ok(value(alloc, json)?)
    } else {
        Ok(None)
    }
}

// Whether two kinds are the same.
fn same_kind(a: Kind, b: Kind) -> bool
    ensures { result ≡ (kind_number a == kind_number b) }
{
    a == b
}

// The kind of the first item that begins another form than this kind's, or this kind.
fn first_other(items: &[Json], kind: Kind) -> Kind
    ensures { result ≡ first_other kind (items_view items.now) }
{
    for item in items {
        let begun = form_begun(item);
        if !same_kind(begun, kind) {
            return begun;
        }
    }
    kind
}

fn list(alloc: Global, items: &[Json]) -> Result<Property, ValueFault>
    ensures ok { IfOk result (IsPropertyJson (array (items_view items.now))) }
    ensures fault { IfErr result (IsValueFault (array (items_view items.now))) }
{
    let [first, ..] = items else {
        return Err(ValueFault::ValueFormat(Kind::Str, Kind::Str));
    };
    let kind = form_begun(first);
    match values(alloc, items, kind)? {
        Some(values) => Ok(Property::Many(kind, values)),
        None => Err(ValueFault::ValueFormat(kind, first_other(items, kind))),
    }
}

fn single(alloc: Global, json: &Json) -> Result<Property, ValueFault>
    requires list { as_array (view json.now) ≡ None }
    requires none { (k : Kind) → view json.now ≡ no_values k → ⊥ }
    ensures value { IfOk result (IsPropertyJson (view json.now)) }
    ensures fault { IfErr result (IsValueFault (view json.now)) }
{
    match value(alloc, json)? {
        Some(value) => Ok(Property::Single(value)),
        None => {
            let kind = form_begun(json);
            Err(ValueFault::ValueFormat(kind, kind))
        }
    }
}

// The kind of which an object says that there are no values.
fn kind_of_none(members: &Map<String, Json>) -> Option<Kind>
    ensures { MatchOption result
        ((k : Kind) → object (members_view members.now.entries) ≡ no_values k → ⊥)
        (λ k. object (members_view members.now.entries) ≡ no_values k) }
{
    let (tag, content) = only_member(members)?;
    if tag.as_str() != "empty" {
        return None;
    }
    match content {
        Json::String(word) => Kind::from_word(word.as_str()),
        _ => None,
    }
}
