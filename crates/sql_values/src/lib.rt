//! Values of queries in JCR-SQL2 (JSR 283, 6 Query): how they compare, the patterns of LIKE, their sizes and letters.
#![tactic(auto)]

mod characters;
mod compare;
mod like;

pub use characters::{Case, in_case, lengths_of, local_part};
pub use compare::{kinds_first, some_compares, some_equal, values_in, values_of};
