// What stands at the places of a list in JSON.
use rows::{items_of, small};
use serde_json::Value as Json;

// The items of a list; none where it is none.
pub(crate) fn items(json: &Json) -> &[Json] {
    items_of(json).unwrap_or(&[])
}

pub(crate) fn items_read(json: &Option<Json>) -> &[Json] {
    match json {
        Some(json) => items(json),
        None => &[],
    }
}

pub(crate) fn number_at(items: &[Json], at: usize) -> u32 {
    match items.get(at) {
        Some(json) => small(json),
        None => 0,
    }
}

pub(crate) fn is_true_at(items: &[Json], at: usize) -> bool {
    matches!(items.get(at), Some(Json::Bool(true)))
}
