// The texts of replies.
ghost use Rattle.std.specs.Prelude.{◌≡◌, ◌∷◌, ◌+◌, ◌^◌, ◌<◌, ◌≤◌, ◌++◌, [], false, IfOk, OnOk, map, string_bytes};
ghost use Rattle.std.specs.Char.{digit_value};
ghost use Rattle.arrayvec.specs.ArrayString.{array_string_len};
ghost use Rattle.serde_json.specs.Data.{array, object, put, string};
ghost use Rattle.serde_json.specs.View.{members_view, view};
ghost use Rattle.serde_json.specs.Written.{compact_text, has_float};
ghost use Rattle.jcr_trans.specs.Answers.{Done, ShowsProperty, ShowsNames, ShowsRevision, ShowsVector, ShowsNothing, ShowsProperties, ShowsText, ShowsItems, Refused};
ghost use Rattle.jcr_trans.specs.Texts.{answer_text, datum_data, datum_items, item_texts, memory_text, name_items, ok_text, property_members};
ghost use Rattle.jcr_trans.specs.Views.{limit_passed, too_many_nodes, IsRefusal};
ghost use Rattle.jr_path.specs.Ids.{path_text};
ghost use Rattle.jr_path.specs.Names.{item_path};
ghost use Rattle.jr_rev.specs.Digits.{IsHexDigit};
ghost use Rattle.jr_rev.specs.Grammar.{FitsFields};
ghost use Rattle.jr_rev.specs.Texts.{hexadecimal, revision_text, vector_text};
ghost use Rattle.jr_json.specs.Json.{property_data};

use arrayvec::ArrayString;
use jr_json::{property_json, property_text};
use jr_path::{Item, Keyed, List, Name, Path, Text};
use jr_rev::{RevVec, Revision, revision_text};
use jr_tree::{Datum, Refusal};
use jr_value::Property;
use serde_json::{Map, Value as Json};
use std::alloc::{AllocError, Global};

/// The reply that shows nothing: `ok`.
pub fn done_reply(alloc: Global) -> Result<String, AllocError>
    ensures { IfOk result (λ text. string_bytes text ≡ answer_text Done) }
{
    Ok(String::from_str(alloc, "ok")?)
}

/// The reply that shows a property: `ok` and its JSON, as `ok 5`.
pub fn property_reply(alloc: Global, property: &Property) -> Result<String, AllocError>
    ensures { IfOk result (λ text. string_bytes text ≡ answer_text (ShowsProperty property.now)) }
{
    let shown = property_text(alloc, property)?;
    Ok(format!(in alloc; "ok {shown}")?)
}

// The reply that shows JSON: `ok` and its text.
fn json_reply(alloc: Global, json: &Json) -> Result<String, AllocError>
    requires { has_float (view json.now) ≡ false }
    ensures { IfOk result (λ text. string_bytes text ≡ ok_text (view json.now)) }
{
    let shown = json.to_string(alloc)?;
    Ok(format!(in alloc; "ok {shown}")?)
}

/// The reply that shows names: `ok` and a list of texts, as `ok ["a","b"]`.
#[tactic(auto, using(crate::proofs::NoFloat::names_plain))]
pub fn names_reply(alloc: Global, names: &[Name]) -> Result<String, AllocError>
    ensures { IfOk result (λ text. string_bytes text ≡ answer_text (ShowsNames names.now)) }
{
    let json = names_json(alloc, names)?;
    json_reply(alloc, &json)
}

fn names_json(alloc: Global, names: &[Name]) -> Result<Json, AllocError>
    ensures { IfOk result (λ json. view json ≡ array (name_items names.now)) }
{
    let mut items = Vec::new(alloc);
    for name in names {
        add_name(&mut items, alloc, name)?;
    }
    Ok(Json::Array(items))
}

// Puts the JSON of a name behind others.
fn add_name(list: &mut Vec<Json>, alloc: Global, name: &Name) -> Result<(), AllocError>
    ensures { OnOk result (map view list.new.items ≡ map view list.old.items ++ string name.now ∷ []) }
{
    add_json(list, text_json(alloc, name.as_str())?)
}

// Puts JSON behind other.
fn add_json(list: &mut Vec<Json>, json: Json) -> Result<(), AllocError>
    ensures { OnOk result (map view list.new.items ≡ map view list.old.items ++ view json ∷ []) }
{
    list.push(json)?;
    Ok(())
}

// The JSON of a text.
fn text_json(alloc: Global, text: &str) -> Result<Json, AllocError>
    ensures { IfOk result (λ json. view json ≡ string text.now) }
{
    Ok(Json::try_from_str(alloc, text)?)
}

/// The reply that shows a node's properties: `ok` and an object that has the JSON of each at its name, in the
/// order of the names, as `ok {"jcr:primaryType":{"name":"nt:unstructured"},"p":5}`. Where there are none it is
/// `ok {}`.
#[tactic(auto, using(crate::proofs::NoFloat::properties_plain))]
pub fn properties_reply(
    alloc: Global,
    properties: &Keyed<Name, Property>,
) -> Result<String, AllocError>
    ensures { IfOk result (λ text. string_bytes text ≡ answer_text (ShowsProperties properties.now)) }
{
    let json = properties_json(alloc, properties)?;
    json_reply(alloc, &json)
}

fn properties_json(alloc: Global, properties: &Keyed<Name, Property>) -> Result<Json, AllocError>
    ensures { IfOk result (λ json. view json ≡ object (property_members properties.now)) }
{
    let mut members = Map::new(alloc);
    for (name, property) in properties.inner() {
        put_property(&mut members, alloc, name, property)?;
    }
    Ok(Json::Object(members))
}

fn put_property(
    members: &mut Map<String, Json>,
    alloc: Global,
    name: &Name,
    property: &Property,
) -> Result<(), AllocError>
    ensures { OnOk result (members_view members.new.entries ≡ put name.now (property_data property.now) (members_view members.old.entries)) }
{
    let json = property_json(alloc, property)?;
    members.insert(String::from_str(alloc, name.as_str())?, json)?;
    Ok(())
}

/// The reply that shows a text, as an identifier or a path: `ok` and the text in JSON, as `ok "/a"`.
pub fn text_reply(alloc: Global, text: &str) -> Result<String, AllocError>
    ensures { IfOk result (λ reply. string_bytes reply ≡ answer_text (ShowsText text.now)) }
{
    let json = Json::try_from_str(alloc, text)?;
    json_reply(alloc, &json)
}

/// The reply that shows items: `ok` and a list of the texts of their paths, as `ok ["/a/r","/b/s"]`. The path of
/// a property has its name last.
#[tactic(auto, using(crate::proofs::NoFloat::items_plain))]
pub fn items_reply(alloc: Global, items: &[Item]) -> Result<String, AllocError>
    ensures { IfOk result (λ text. string_bytes text ≡ answer_text (ShowsItems items.now)) }
{
    let json = items_json(alloc, items)?;
    json_reply(alloc, &json)
}

fn items_json(alloc: Global, items: &[Item]) -> Result<Json, AllocError>
    ensures { IfOk result (λ json. view json ≡ array (item_texts items.now)) }
{
    let mut texts = Vec::new(alloc);
    for item in items {
        add_item(&mut texts, item)?;
    }
    Ok(Json::Array(texts))
}

// Puts the text of an item's path behind others.
fn add_item(list: &mut Vec<Json>, item: &Item) -> Result<(), AllocError>
    ensures { OnOk result (map view list.new.items ≡ map view list.old.items ++ string (path_text (item_path item.now)) ∷ []) }
{
    add_json(list, item_json(item)?)
}

fn item_json(item: &Item) -> Result<Json, AllocError>
    ensures { IfOk result (λ json. view json ≡ string (path_text (item_path item.now))) }
{
    Ok(Json::String(text_of_item(item)?))
}

/// The reply of a save that committed: `ok` and the text of the commit's revision, as `ok "r1-0-1"`. It takes no memory, so that
/// a commit that is made is always answered: the digits of a revision are 16, 8 and 8 at most, and the whole is 40 bytes.
pub fn revision_reply(revision: &Revision) -> ArrayString<40>
    ensures { result.bytes ≡ answer_text (ShowsRevision revision.now) }
{
    let mut text = ArrayString::new();
    text.push_str("ok \"");
    let shown = revision_text(revision);
    text.push_str(shown.as_str());
    text.push_str("\"");
    text
}

fn text_of_revision(alloc: Global, revision: &Revision) -> Result<String, AllocError>
    ensures { IfOk result (λ text. string_bytes text ≡ revision_text revision.now) }
{
    let text = revision_text(revision);
    Ok(String::from_str(alloc, text.as_str())?)
}

/// The reply that shows a session's base: `ok` and the text of the vector, as `ok "r1-0-1,r0-0-2"`.
pub fn vector_reply(alloc: Global, vector: &RevVec) -> Result<String, AllocError>
    ensures { IfOk result (λ text. string_bytes text ≡ answer_text (ShowsVector vector.now)) }
{
    let json = Json::String(text_of_vector(alloc, vector)?);
    json_reply(alloc, &json)
}

fn text_of_vector(alloc: Global, vector: &RevVec) -> Result<String, AllocError>
    ensures { IfOk result (λ text. string_bytes text ≡ vector_text vector.now) }
{
    let mut bytes = Vec::new(alloc);
    vector.put_text(&mut bytes)?;
    Ok(String::from_utf8(bytes).unwrap())
}

/// The reply of a save that had nothing to commit: `ok null`.
pub fn null_reply(alloc: Global) -> Result<String, AllocError>
    ensures { IfOk result (λ text. string_bytes text ≡ answer_text ShowsNothing) }
{
    Ok(String::from_str(alloc, "ok null")?)
}

/// The reply where memory was refused: `no 16 []`.
pub fn memory_reply(alloc: Global) -> Result<String, AllocError>
    ensures { IfOk result (λ text. string_bytes text ≡ memory_text) }
{
    refusal_text(alloc, &Refusal::memory(alloc))
}

/// The reply of a save after which the tree would have too many nodes: `no 15 ["nodes",100000]`.
pub fn too_many_reply(alloc: Global) -> Result<String, AllocError>
    ensures { IfOk result (λ text. string_bytes text ≡ answer_text too_many_nodes) }
{
    refusal_text(alloc, &limit(alloc, "nodes", 100_000)?)
}

// A limit is passed.
fn limit(alloc: Global, what: &str, most: u64) -> Result<Refusal, AllocError>
    ensures { IfOk result (IsRefusal (limit_passed what.now most)) }
{
    let mut parts = List::new(alloc);
    parts.push(Datum::Text(Text::of(String::from_str(alloc, what)?)))?;
    parts.push(Datum::Number(most))?;
    Ok(Refusal { number: 15, parts })
}

/// The reply of a refusal: `no`, its number, and a list of what it names, as `no 1 ["/a"]`. A path, an item, a
/// name, a text, a kind and a revision are texts there, and an item is the path of its node or property.
pub fn refusal_text(alloc: Global, refusal: &Refusal) -> Result<String, AllocError>
    ensures { IfOk result (λ text. string_bytes text ≡ answer_text (Refused refusal.now.number refusal.now.parts)) }
{
    let number = refusal.number;
    let named = parts_text(alloc, refusal.parts.inner())?;
    Ok(format!(in alloc; "no {number} {named}")?)
}

#[tactic(auto, using(crate::proofs::NoFloat::parts_plain))]
fn parts_text(alloc: Global, parts: &[Datum]) -> Result<String, AllocError>
    ensures { IfOk result (λ text. string_bytes text ≡ compact_text (array (datum_items parts.now))) }
{
    let json = parts_json(alloc, parts)?;
    Ok(json.to_string(alloc)?)
}

fn parts_json(alloc: Global, parts: &[Datum]) -> Result<Json, AllocError>
    ensures { IfOk result (λ json. view json ≡ array (datum_items parts.now)) }
{
    let mut items = Vec::new(alloc);
    for part in parts {
        add_part(&mut items, alloc, part)?;
    }
    Ok(Json::Array(items))
}

// Puts the JSON of what a refusal names behind others.
fn add_part(list: &mut Vec<Json>, alloc: Global, part: &Datum) -> Result<(), AllocError>
    ensures { OnOk result (map view list.new.items ≡ map view list.old.items ++ datum_data part.now ∷ []) }
{
    add_json(list, part_json(alloc, part)?)
}

fn part_json(alloc: Global, part: &Datum) -> Result<Json, AllocError>
    ensures { IfOk result (λ json. view json ≡ datum_data part.now) }
{
    match part {
        Datum::Path(path) => path_json(path),
        Datum::Item(item) => item_json(item),
        Datum::Name(name) => text_json(alloc, name.as_str()),
        Datum::Text(text) => text_json(alloc, text.as_str()),
        Datum::Number(number) => Ok(Json::from(*number)),
        Datum::Kind(kind) => text_json(alloc, kind.as_str()),
        Datum::Revision(revision) => revision_json(alloc, revision),
        Datum::Null => Ok(Json::Null),
    }
}

fn path_json(path: &Path) -> Result<Json, AllocError>
    ensures { IfOk result (λ json. view json ≡ string (path_text path.now)) }
{
    Ok(Json::String(path.text()?))
}

fn revision_json(alloc: Global, revision: &Revision) -> Result<Json, AllocError>
    ensures { IfOk result (λ json. view json ≡ string (revision_text revision.now)) }
{
    Ok(Json::String(text_of_revision(alloc, revision)?))
}

// The text of an item's path, which has the property's name last.
fn text_of_item(item: &Item) -> Result<String, AllocError>
    ensures { IfOk result (λ text. string_bytes text ≡ path_text (item_path item.now)) }
{
    match &item.name {
        Some(name) => text_of_child(&item.path, name),
        None => item.path.text(),
    }
}

// The text of a path with a name behind it.
fn text_of_child(path: &Path, name: &Name) -> Result<String, AllocError>
    ensures { IfOk result (λ text. string_bytes text ≡ path_text (path.now ++ name.now ∷ [])) }
{
    let path = path.child(name)?;
    path.text()
}
