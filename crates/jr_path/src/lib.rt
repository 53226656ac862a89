//! Names, paths, items and the ids of documents, and with them the small types of the crate below.
#![tactic(auto)]

mod cursor;
mod fault;
mod laws;
mod name;
mod path;
mod path_text;

pub use fault::PathFault;
pub use jr_list::{DeepCopy, Keyed, List, Text};
pub use laws::{
    first_faults, order_of_ids, order_of_items, order_of_names, order_of_paths, parts_of_paths,
    paths_below, texts_of_ids, texts_of_paths, texts_read_back,
};
pub use name::{MAX_NAME_BYTES, Name};
pub use path::{DocId, Item, Path};
pub use path_text::{MAX_PATH_BYTES, MAX_PATH_NAMES, PathText};
