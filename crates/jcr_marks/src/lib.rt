//! The marks that an edit makes, found write by write.
#![tactic(auto)]

mod covered;
mod marking;

pub use marking::{is_type_name, marks_between};
