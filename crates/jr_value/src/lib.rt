//! Values and properties (JSR 283, 3.6 Value and 3.5 Property): their kinds, equality, order and copies,
//! and values from their texts.
#![tactic(auto)]

mod copies;
mod equality;
mod from_text;
mod laws;
mod order;
mod value;
mod words;

pub use equality::{same_properties_are_equal, same_values_are_equal};
pub use from_text::{identifier_named, name_of, path_of, whole_number};
pub use laws::identifiers_order_as_their_texts;
pub use order::values_of_one_kind_have_an_order;
pub use value::{ALL_KINDS, Kind, Property, Value};
pub use words::identifier_text;
