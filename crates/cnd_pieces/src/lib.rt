//! The tokens of a text of type definitions, each with what it says (JSR 283, 25.2 Compact Node Type Definition Notation).
#![tactic(auto)]

mod context;
mod piece;
mod pieces;
mod scan;
mod words;

pub use context::Context;
pub use piece::{Placed, Says, Sign, TokenKind};
pub use pieces::pieces_of;
pub use scan::{Gap, is_bare};
pub use words::{is_a, is_prefix, kind_named};
