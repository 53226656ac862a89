//! Small types over std's collections: a list, a text and a map, as contracts see them, and exact copies.
#![tactic(auto)]

mod copies;
mod keyed;
mod list;
mod text;

pub use copies::DeepCopy;
pub use keyed::Keyed;
pub use list::List;
pub use text::Text;
