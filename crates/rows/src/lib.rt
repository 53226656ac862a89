//! What rows share: the text that they write, and what stands in texts and in JSON.
#![tactic(auto)]

mod edits;
mod json;
mod out;
mod texts;

pub use edits::edit_of;
pub use json::{
    items_in, items_of, json_of, large, property_of, property_or_false, small, text_at, text_in,
};
pub use out::Out;
pub use texts::{cut, number, revision, short, vector};
