//! The JSON of values and properties (JSR 283, 3.6 Value and 3.5 Property), both ways.
#![tactic(auto)]

mod fault;
mod laws;
mod reading;
mod writing;

pub use fault::ValueFault;
pub use laws::{json_is_at_most_one_property, printed_properties_are_read_back};
pub use reading::read_property;
pub use writing::{property_json, property_text, value_json};
