//! Type definitions read from text: the notation of JSR 283, 25.2 Compact Node Type Definition Notation, in this profile.
#![tactic(auto)]

mod attributes;
mod cnd;
mod cursor;
mod fault;
mod file;
mod items;
mod laws;
mod lists;
mod types;
mod words;

pub use attributes::ItemAttributes;
pub use cnd::{Cnd, Prefix};
pub use fault::NoCnd;
pub use file::{File, PlacedType, read_cnd};
pub use laws::one_meaning;
pub use types::{Items, TypeAttributes};
pub use words::{ItemWord, TypeWord};
