// Node types from their JSON.
ghost use Rattle.std.specs.Prelude.{◌≡◌, ◌∷◌, [], None, codes, false, true, IfOk, map};
ghost use Rattle.std.specs.List.{list_any};
ghost use Rattle.std.specs.Str.{bytes_eq};
ghost use Rattle.std.specs.Option.{option_map_or};
ghost use Rattle.serde_json.specs.Data.{string};
ghost use Rattle.serde_json.specs.Find.{as_str, get};
ghost use Rattle.serde_json.specs.View.{items_view, members_view, view};
ghost use Rattle.jr_path.specs.Grammar.{IsName};
ghost use Rattle.jr_json.specs.Reading.{IsPropertyJson};
ghost use Rattle.jr_value.specs.declared.value.Kind.{Kind};
ghost use Rattle.jr_value.specs.declared.value.Property.TheVariants.{Many};
ghost use Rattle.jr_items.specs.Names.{base_type};
ghost use Rattle.jr_defs.specs.Reading.{AreDefaultsJson, AreRead, IsChildJson, IsFlagJson, IsItemNameJson, IsKindJson, IsListJson, IsNameJson, IsOpvJson, IsOr, IsPropJson, IsSomeNameJson, IsTextJson, IsThere, IsTypeJson, Reads, have_keys, is_object_of, unread_values, refused};
ghost use Rattle.jr_types.specs.declared.OnParentVersion.TheVariants.{Copy};
ghost use Rattle.jr_defs.specs.declared.reading.NoType.TheVariants.{Memory};

use jr_items::OwnName;
use jr_json::{ValueFault, read_property};
use jr_path::{List, Name, PathFault, Text};
use jr_types::{ChildDef, OnParentVersion, PropDef, TypeDef};
use jr_value::{Kind, Property, Value};
use serde_json::{Map, Value as Json};
use std::alloc::{AllocError, AllocFailed, Global};

/// Why a type isn't read from JSON.
#[derive(Clone, Copy, PartialEq, Eq, Drop)]
pub enum NoType {
    /// The JSON is no type's definition.
    NoDefinition,
    /// Memory was refused.
    Memory,
}

impl From<AllocError> for NoType {
    ghost from_gives = { λ _ e. e ≡ Memory };

    fn from(_: AllocError) -> NoType {
        NoType::Memory
    }
}

impl<T: Drop> From<AllocFailed<T>> for NoType {
    ghost from_gives = { λ _ e. e ≡ Memory };

    fn from(_: AllocFailed<T>) -> NoType {
        NoType::Memory
    }
}

/// Reads the definition of a node type: an object with `name`, and whichever it wants of
/// `supertypes`, `abstract`, `mixin`, `orderable`, `primaryItem`, `props` and `children`. What is
/// left out is false, none or the empty list. A property's definition has `name`, or `*` for any
/// other, and of `type`, `mandatory`, `autocreated`, `protected`, `multiple`, `defaults`,
/// `constraints` and `opv` what it wants; a child's `name`, `types`, `default`, `mandatory`,
/// `autocreated`, `protected` and `opv`. Left out, `type` is `undefined`, `types` is `nt:base`
/// alone, and `opv` is `COPY`.
pub fn read_type(alloc: Global, json: &Json) -> Result<TypeDef, NoType>
    ensures { Reads (IsTypeJson (view json.now)) result }
{
    is_object_of(
        json,
        &[
            "name",
            "supertypes",
            "abstract",
            "mixin",
            "orderable",
            "primaryItem",
            "props",
            "children",
        ],
    )?;
    let is_abstract = flag(json, "abstract")?;
    let mixin = flag(json, "mixin")?;
    let orderable = flag(json, "orderable")?;
    let name = own_name(alloc, json)?;
    let supertypes = names_at(alloc, json, "supertypes")?;
    let primary_item = optional_name(alloc, json, "primaryItem")?;
    let props = props_at(alloc, json)?;
    let children = children_at(alloc, json)?;
    Ok(TypeDef {
        name,
        supertypes,
        is_abstract,
        mixin,
        orderable,
        primary_item,
        props,
        children,
    })
}

// Whether the JSON is an object that has no other keys than these.
fn is_object_of(json: &Json, keys: &[&str]) -> Result<(), NoType>
    ensures { Reads (λ u. is_object_of (map (λ k. k.now) keys.now) (view json.now) ≡ true) result }
{
    match json.as_object() {
        Some(members) => are_keys(keys, members),
        None => Err(NoType::NoDefinition),
    }
}

fn are_keys(keys: &[&str], members: &Map<String, Json>) -> Result<(), NoType>
    ensures { Reads (λ u. have_keys (map (λ k. k.now) keys.now) (members_view members.now.entries)
        ≡ true) result }
{
    if have_keys(keys, members) {
        return Ok(());
    }
    Err(NoType::NoDefinition)
}

fn have_keys(keys: &[&str], members: &Map<String, Json>) -> bool
    ensures { result ≡ have_keys (map (λ k. k.now) keys.now) (members_view members.now.entries) }
{
    for (key, _member) in members.iter() {
        if !is_key(keys, key.as_str()) {
            return false;
        }
    }
    true
}

fn is_key(keys: &[&str], key: &str) -> bool
    ensures { result ≡ list_any (λ k. bytes_eq key.now k) (map (λ k. k.now) keys.now) }
{
    match keys {
        [] => false,
        [first, rest @ ..] => key == *first || is_key(rest, key),
    }
}

fn prop_in(alloc: Global, json: &Json) -> Result<PropDef, NoType>
    ensures { Reads (IsPropJson (view json.now)) result }
{
    is_object_of(
        json,
        &[
            "name",
            "type",
            "mandatory",
            "autocreated",
            "protected",
            "multiple",
            "defaults",
            "constraints",
            "opv",
        ],
    )?;
    let kind = kind_at(json)?;
    let mandatory = flag(json, "mandatory")?;
    let autocreated = flag(json, "autocreated")?;
    let protected = flag(json, "protected")?;
    let multiple = flag(json, "multiple")?;
    let opv = attribute_at(json)?;
    let name = item_name(alloc, json)?;
    let defaults = defaults_at(alloc, json)?;
    let constraints = texts_at(alloc, json)?;
    Ok(PropDef {
        name,
        kind,
        mandatory,
        autocreated,
        protected,
        multiple,
        defaults,
        constraints,
        opv,
    })
}

fn child_in(alloc: Global, json: &Json) -> Result<ChildDef, NoType>
    ensures { Reads (IsChildJson (view json.now)) result }
{
    is_object_of(
        json,
        &[
            "name",
            "types",
            "default",
            "mandatory",
            "autocreated",
            "protected",
            "opv",
        ],
    )?;
    let mandatory = flag(json, "mandatory")?;
    let autocreated = flag(json, "autocreated")?;
    let protected = flag(json, "protected")?;
    let opv = attribute_at(json)?;
    let name = item_name(alloc, json)?;
    let default_type = optional_name(alloc, json, "default")?;
    let types = types_at(alloc, json)?;
    Ok(ChildDef {
        name,
        types,
        default_type,
        mandatory,
        autocreated,
        protected,
        opv,
    })
}

fn props_at(alloc: Global, json: &Json) -> Result<List<PropDef>, NoType>
    ensures { Reads (IsOr [] (IsListJson IsPropJson) (get (codes "props") (view json.now))) result }
{
    match json.get("props") {
        Some(json) => prop_list(alloc, json),
        None => Ok(List::new(alloc)),
    }
}

fn prop_list(alloc: Global, json: &Json) -> Result<List<PropDef>, NoType>
    ensures { Reads (IsListJson IsPropJson (view json.now)) result }
{
    match json.as_array() {
        Some(items) => prop_list_of(alloc, items),
        None => Err(NoType::NoDefinition),
    }
}

fn prop_list_of(alloc: Global, items: &[Json]) -> Result<List<PropDef>, NoType>
    ensures { Reads (AreRead IsPropJson (items_view items.now)) result }
{
    let mut list = List::new(alloc);
    for item in items {
        list.push(prop_in(alloc, item)?)?;
    }
    Ok(list)
}

fn children_at(alloc: Global, json: &Json) -> Result<List<ChildDef>, NoType>
    ensures { Reads (IsOr [] (IsListJson IsChildJson)
        (get (codes "children") (view json.now))) result }
{
    match json.get("children") {
        Some(json) => child_list(alloc, json),
        None => Ok(List::new(alloc)),
    }
}

fn child_list(alloc: Global, json: &Json) -> Result<List<ChildDef>, NoType>
    ensures { Reads (IsListJson IsChildJson (view json.now)) result }
{
    match json.as_array() {
        Some(items) => child_list_of(alloc, items),
        None => Err(NoType::NoDefinition),
    }
}

fn child_list_of(alloc: Global, items: &[Json]) -> Result<List<ChildDef>, NoType>
    ensures { Reads (AreRead IsChildJson (items_view items.now)) result }
{
    let mut list = List::new(alloc);
    for item in items {
        list.push(child_in(alloc, item)?)?;
    }
    Ok(list)
}

fn names_at(alloc: Global, json: &Json, key: &str) -> Result<List<Name>, NoType>
    ensures { Reads (IsOr [] (IsListJson IsNameJson) (get key.now (view json.now))) result }
{
    match json.get(key) {
        Some(json) => name_list(alloc, json),
        None => Ok(List::new(alloc)),
    }
}

fn name_list(alloc: Global, json: &Json) -> Result<List<Name>, NoType>
    ensures { Reads (IsListJson IsNameJson (view json.now)) result }
{
    match json.as_array() {
        Some(items) => name_list_of(alloc, items),
        None => Err(NoType::NoDefinition),
    }
}

fn name_list_of(alloc: Global, items: &[Json]) -> Result<List<Name>, NoType>
    ensures { Reads (AreRead IsNameJson (items_view items.now)) result }
{
    let mut list = List::new(alloc);
    for item in items {
        list.push(name_in(alloc, item)?)?;
    }
    Ok(list)
}

fn texts_at(alloc: Global, json: &Json) -> Result<List<Text>, NoType>
    ensures { Reads (IsOr [] (IsListJson IsTextJson)
        (get (codes "constraints") (view json.now))) result }
{
    match json.get("constraints") {
        Some(json) => text_list(alloc, json),
        None => Ok(List::new(alloc)),
    }
}

fn text_list(alloc: Global, json: &Json) -> Result<List<Text>, NoType>
    ensures { Reads (IsListJson IsTextJson (view json.now)) result }
{
    match json.as_array() {
        Some(items) => text_list_of(alloc, items),
        None => Err(NoType::NoDefinition),
    }
}

fn text_list_of(alloc: Global, items: &[Json]) -> Result<List<Text>, NoType>
    ensures { Reads (AreRead IsTextJson (items_view items.now)) result }
{
    let mut list = List::new(alloc);
    for item in items {
        list.push(text_in(alloc, item)?)?;
    }
    Ok(list)
}

// The required types of a child: `nt:base` where they are left out.
fn types_at(alloc: Global, json: &Json) -> Result<List<Name>, NoType>
    ensures { Reads (IsOr (base_type ∷ []) (IsListJson IsNameJson)
        (get (codes "types") (view json.now))) result }
{
    match json.get("types") {
        Some(json) => name_list(alloc, json),
        None => Ok(base_alone(alloc)?),
    }
}

fn base_alone(alloc: Global) -> Result<List<Name>, AllocError>
    ensures { IfOk result (λ types. types ≡ base_type ∷ []) }
{
    let name = OwnName::BaseType.name(alloc)?;
    let mut types = List::new(alloc);
    types.push(name)?;
    Ok(types)
}

fn text_in(alloc: Global, json: &Json) -> Result<Text, NoType>
    ensures { Reads (IsTextJson (view json.now)) result }
{
    match json.as_str() {
        Some(text) => Ok(Text::copy_of(alloc, text)?),
        None => Err(NoType::NoDefinition),
    }
}

fn defaults_at(alloc: Global, json: &Json) -> Result<List<Value>, NoType>
    ensures { Reads (IsOr [] AreDefaultsJson (get (codes "defaults") (view json.now))) result }
{
    match json.get("defaults") {
        Some(json) => defaults_in(alloc, json),
        None => Ok(List::new(alloc)),
    }
}

// A list of single values of one kind.
fn defaults_in(alloc: Global, json: &Json) -> Result<List<Value>, NoType>
    ensures { Reads (AreDefaultsJson (view json.now)) result }
{
    match json.as_array() {
        Some(items) => {
            if items.is_empty() {
                return Ok(List::new(alloc));
            }
            some_values(alloc, json)
        }
        None => Err(NoType::NoDefinition),
    }
}

// The values of a property that has a list of them.
fn some_values(alloc: Global, json: &Json) -> Result<List<Value>, NoType>
    ensures { Reads (λ xs. (k : Kind) × IsPropertyJson (view json.now) (Many k xs)) result }
{
    match read_property(alloc, json) {
        Ok(Property::Many(_, values)) => Ok(values),
        Ok(Property::Single(_)) => Err(NoType::NoDefinition),
        Err(fault) => Err(no_values(fault)),
    }
}

fn no_values(fault: ValueFault) -> NoType
    ensures { result ≡ unread_values fault }
{
    match fault {
        ValueFault::Memory => NoType::Memory,
        _ => NoType::NoDefinition,
    }
}

fn own_name(alloc: Global, json: &Json) -> Result<Name, NoType>
    ensures { Reads (IsThere IsNameJson (get (codes "name") (view json.now))) result }
{
    match json.get("name") {
        Some(json) => name_in(alloc, json),
        None => Err(NoType::NoDefinition),
    }
}

fn name_in(alloc: Global, json: &Json) -> Result<Name, NoType>
    ensures { Reads (IsNameJson (view json.now)) result }
{
    match json.as_str() {
        Some(text) => name_of(alloc, text),
        None => Err(NoType::NoDefinition),
    }
}

fn name_of(alloc: Global, text: &str) -> Result<Name, NoType>
    ensures { Reads (λ n. (n ≡ text.now) × IsName text.now) result }
{
    match Name::parse(alloc, text) {
        Ok(name) => Ok(name),
        Err(fault) => Err(refused(fault)),
    }
}

fn refused(fault: PathFault) -> NoType
    ensures { result ≡ refused fault }
{
    match fault {
        PathFault::Memory => NoType::Memory,
        _ => NoType::NoDefinition,
    }
}

// A name, or `*` for items of no name of their own.
fn item_name(alloc: Global, json: &Json) -> Result<Option<Name>, NoType>
    ensures { Reads (IsThere IsItemNameJson (get (codes "name") (view json.now))) result }
{
    match json.get("name") {
        Some(json) => item_name_in(alloc, json),
        None => Err(NoType::NoDefinition),
    }
}

fn item_name_in(alloc: Global, json: &Json) -> Result<Option<Name>, NoType>
    ensures { Reads (IsItemNameJson (view json.now)) result }
{
    if is_star(json) {
        return Ok(None);
    }
    some_name(alloc, json)
}

fn is_star(json: &Json) -> bool
    ensures { result ≡ option_map_or (λ text. bytes_eq text (codes "*"))
        (as_str (view json.now)) false }
{
    match json.as_str() {
        Some(text) => text == "*",
        None => false,
    }
}

fn some_name(alloc: Global, json: &Json) -> Result<Option<Name>, NoType>
    ensures { Reads (IsSomeNameJson (view json.now)) result }
{
    Ok(Some(name_in(alloc, json)?))
}

fn optional_name(alloc: Global, json: &Json, key: &str) -> Result<Option<Name>, NoType>
    ensures { Reads (IsOr None IsSomeNameJson (get key.now (view json.now))) result }
{
    match json.get(key) {
        Some(json) => some_name(alloc, json),
        None => Ok(None),
    }
}

fn flag(json: &Json, key: &str) -> Result<bool, NoType>
    ensures { Reads (IsOr false IsFlagJson (get key.now (view json.now))) result }
{
    match json.get(key) {
        Some(json) => truth_in(json),
        None => Ok(false),
    }
}

fn truth_in(json: &Json) -> Result<bool, NoType>
    ensures { Reads (IsFlagJson (view json.now)) result }
{
    match json.as_bool() {
        Some(truth) => Ok(truth),
        None => Err(NoType::NoDefinition),
    }
}

// A kind by its lower-case word, or none for `undefined`.
fn kind_at(json: &Json) -> Result<Option<Kind>, NoType>
    ensures { Reads (IsOr None IsKindJson (get (codes "type") (view json.now))) result }
{
    match json.get("type") {
        Some(json) => kind_in(json),
        None => Ok(None),
    }
}

fn kind_in(json: &Json) -> Result<Option<Kind>, NoType>
    ensures { Reads (IsKindJson (view json.now)) result }
{
    match json.as_str() {
        Some(word) => kind_of(word),
        None => Err(NoType::NoDefinition),
    }
}

fn kind_of(word: &str) -> Result<Option<Kind>, NoType>
    ensures { Reads (IsKindJson (string word.now)) result }
{
    if word == "undefined" {
        return Ok(None);
    }
    match Kind::from_word(word) {
        Some(kind) => Ok(Some(kind)),
        None => Err(NoType::NoDefinition),
    }
}

// An attribute by its word.
fn attribute_at(json: &Json) -> Result<OnParentVersion, NoType>
    ensures { Reads (IsOr Copy IsOpvJson (get (codes "opv") (view json.now))) result }
{
    match json.get("opv") {
        Some(json) => attribute_in(json),
        None => Ok(OnParentVersion::Copy),
    }
}

fn attribute_in(json: &Json) -> Result<OnParentVersion, NoType>
    ensures { Reads (IsOpvJson (view json.now)) result }
{
    match json.as_str() {
        Some(word) => attribute_of(word),
        None => Err(NoType::NoDefinition),
    }
}

fn attribute_of(word: &str) -> Result<OnParentVersion, NoType>
    ensures { Reads (IsOpvJson (string word.now)) result }
{
    match word {
        "COPY" => Ok(OnParentVersion::Copy),
        "VERSION" => Ok(OnParentVersion::Version),
        "INITIALIZE" => Ok(OnParentVersion::Initialize),
        "COMPUTE" => Ok(OnParentVersion::Compute),
        "IGNORE" => Ok(OnParentVersion::Ignore),
        "ABORT" => Ok(OnParentVersion::Abort),
        _ => Err(NoType::NoDefinition),
    }
}
