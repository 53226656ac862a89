//! Definitions of node types from JSON.
#![tactic(auto)]

mod reading;

pub use reading::{NoType, read_type};
