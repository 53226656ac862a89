// What stands in JSON. Functions, so that `Out` leads nobody to the readers of JSON.
use crate::out::Out;
use jr_json::{ValueFault, read_property};
use jr_value::{Property, Value};
use serde_json::Value as Json;

/// The JSON that a text is; none where it is none.
pub fn json_of(text: &str, out: &mut Out) -> Option<Json> {
    match Json::from_str(out.alloc, text) {
        Ok(json) => Some(json),
        Err(error) => {
            if error.is_memory() {
                out.is_broken = true;
            }
            None
        }
    }
}

/// The property that JSON is; none where it is none.
pub fn property_of(json: &Json, out: &mut Out) -> Option<Property> {
    match read_property(out.alloc, json) {
        Ok(property) => Some(property),
        Err(fault) => {
            if let ValueFault::Memory = fault {
                out.is_broken = true;
            }
            None
        }
    }
}

/// The property that JSON is; that of `false` where it is none, and the row then can't be read.
pub fn property_or_false(json: &Json, out: &mut Out) -> Property {
    match read_property(out.alloc, json) {
        Ok(property) => property,
        Err(_) => {
            out.is_broken = true;
            Property::Single(Value::Boolean(false))
        }
    }
}

pub fn items_of(json: &Json) -> Option<&[Json]> {
    match json {
        Json::Array(items) => Some(items.as_slice()),
        _ => None,
    }
}

/// The list that a member is; none where there is no such member.
pub fn items_in<'a>(json: &'a Json, key: &str) -> &'a [Json] {
    match json.get(key) {
        Some(Json::Array(items)) => items.as_slice(),
        _ => &[],
    }
}

pub fn text_in(json: &Json) -> &str {
    match json {
        Json::String(text) => text.as_str(),
        _ => "",
    }
}

/// The text at a place of a list; the empty one where no text stands there.
pub fn text_at(items: &[Json], at: usize) -> &str {
    match items.get(at) {
        Some(json) => text_in(json),
        None => "",
    }
}

pub fn large(json: &Json) -> u64 {
    json.as_u64().unwrap_or(0)
}

pub fn small(json: &Json) -> u32 {
    u32::try_from(large(json)).unwrap_or(0)
}
