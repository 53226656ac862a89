//! The tokens of a query of JCR-SQL2 (JSR 283, 6.7), each with what it says.
#![tactic(auto)]

mod fault;
mod firsts;
mod leaves;
mod piece;
mod pieces;

pub use fault::SqlFault;
pub use firsts::{
    behind, call_first, kind_first, literal_first, name_first, path_first, selector_first,
    sign_first, text_first, word_first,
};
pub use leaves::{is_a, place_named};
pub use piece::{Placed, Says, Sign};
pub use pieces::pieces_of;
