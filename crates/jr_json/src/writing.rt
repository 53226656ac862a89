// The JSON of values and properties, as it is printed.
ghost use Rattle.std.specs.Prelude.{◌≡◌, ◌∷◌, ◌++◌, [], IfOk, OnOk, map, string_bytes};
ghost use Rattle.serde_json.specs.Data.{array, string};
ghost use Rattle.serde_json.specs.View.{view};
ghost use Rattle.serde_json.specs.Written.{compact_text};
ghost use Rattle.jr_json.specs.Json.{property_data, tagged, value_data, value_items};
ghost use Rattle.jr_value.specs.Words.{identifier_text};
ghost use Rattle.jr_value.specs.declared.value.Value.TheVariants as value;

use base64::engine::general_purpose::STANDARD;
use jr_path::Path;
use jr_value::{Property, Value, identifier_text};
use serde_json::{Map, Value as Json};
use std::alloc::{AllocError, Global};

/// The JSON of a value: a STRING as text, a LONG as a number, a BOOLEAN as itself, each other kind as an
/// object of one member that the kind names: `{"binary": Base64}`, `{"date": milliseconds}`,
/// `{"name": text}`, `{"path": text}`, `{"reference": identifier}`, `{"weakreference": identifier}`,
/// `{"uri": text}`.
pub fn value_json(alloc: Global, value: &Value) -> Result<Json, AllocError>
    ensures { IfOk result (λ json. view json ≡ value_data value.now) }
{
    match value {
        Value::Str(text) => string_json(alloc, text.as_str()),
        Value::Binary(bytes) => binary_json(alloc, bytes.inner()),
        Value::Long(number) => Ok(Json::from(*number)),
        Value::Date(time) => tagged(alloc, "date", Json::from(*time)),
        Value::Boolean(truth) => Ok(Json::Bool(*truth)),
        Value::Name(name) => tagged_text(alloc, "name", name.as_str()),
        Value::Path(path) => path_json(alloc, path),
        Value::Reference(id) => tagged_identifier(alloc, "reference", *id),
        Value::WeakReference(id) => tagged_identifier(alloc, "weakreference", *id),
        Value::Uri(text) => tagged_text(alloc, "uri", text.as_str()),
    }
}

/// The JSON of a property: that of its one value, a list of the values' JSON, or for a property with no
/// values `{"empty": kind}`.
pub fn property_json(alloc: Global, property: &Property) -> Result<Json, AllocError>
    ensures { IfOk result (λ json. view json ≡ property_data property.now) }
{
    match property {
        Property::Single(value) => value_json(alloc, value),
        Property::Many(kind, values) => match values.inner().as_slice() {
            [] => tagged_text(alloc, "empty", kind.as_str()),
            values => list_json(alloc, values),
        },
    }
}

/// The text of the property's JSON, with no spaces.
pub fn property_text(alloc: Global, property: &Property) -> Result<String, AllocError>
    ensures { IfOk result (λ text. string_bytes text ≡ compact_text (property_data property.now)) }
{
    let json = property_json(alloc, property)?;
    json.to_string(alloc)
}

fn list_json(alloc: Global, values: &[Value]) -> Result<Json, AllocError>
    ensures { IfOk result (λ json. view json ≡ array (value_items values.now)) }
{
    Ok(Json::Array(items_json(alloc, values)?))
}

// The JSON of each value.
fn items_json(alloc: Global, values: &[Value]) -> Result<Vec<Json>, AllocError>
    ensures { IfOk result (λ items. map view items.items ≡ map value_data values.now) }
{
    let mut items = Vec::new(alloc);
    for value in values {
        put_item(alloc, &mut items, value)?;
    }
    Ok(items)
}

// Puts the JSON of a value at the end.
fn put_item(alloc: Global, items: &mut Vec<Json>, value: &Value) -> Result<(), AllocError>
    ensures { OnOk result (map view items.new.items ≡ map view items.old.items ++ value_data value.now ∷ []) }
{
    let json = value_json(alloc, value)?;
    items.push(json)?;
    Ok(())
}

fn string_json(alloc: Global, text: &str) -> Result<Json, AllocError>
    ensures { IfOk result (λ json. view json ≡ string text.now) }
{
    Json::try_from_str(alloc, text)
}

fn binary_json(alloc: Global, bytes: &[u8]) -> Result<Json, AllocError>
    ensures { IfOk result (λ json. view json ≡ value_data (value.Binary bytes.now)) }
{
    let text = STANDARD.encode(alloc, bytes)?;
    tagged(alloc, "binary", Json::String(text))
}

fn path_json(alloc: Global, path: &Path) -> Result<Json, AllocError>
    ensures { IfOk result (λ json. view json ≡ value_data (value.Path path.now)) }
{
    let text = path.text()?;
    tagged(alloc, "path", Json::String(text))
}

// An object with one member.
fn tagged(alloc: Global, tag: &str, content: Json) -> Result<Json, AllocError>
    ensures { IfOk result (λ json. view json ≡ tagged tag.now (view content)) }
{
    let mut map = Map::new(alloc);
    map.insert(String::from_str(alloc, tag)?, content)?;
    Ok(Json::Object(map))
}

fn tagged_text(alloc: Global, tag: &str, text: &str) -> Result<Json, AllocError>
    ensures { IfOk result (λ json. view json ≡ tagged tag.now (string text.now)) }
{
    tagged(alloc, tag, string_json(alloc, text)?)
}

fn tagged_identifier(alloc: Global, tag: &str, id: u128) -> Result<Json, AllocError>
    ensures { IfOk result (λ json. view json ≡ tagged tag.now (string (identifier_text id))) }
{
    let text = identifier_text(alloc, id)?;
    tagged(alloc, tag, Json::String(text))
}
