//! Queries of JCR-SQL2 (JSR 283, 6.7), read from their text.
#![tactic(auto)]

mod conditions;
mod depth;
mod laws;
mod operands;
mod orders;
mod parser;

pub use laws::answers_are_one;
pub use parser::parse;
