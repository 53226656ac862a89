//! Rows of queries in JCR-SQL2 (JSR 283, 6 Query), found by an index for each join, by path ranges, and with what a
//! condition asks of one selector asked before the join.
#![tactic(auto)]

mod early;
mod index;
mod join;
mod link;
mod plan;
mod range;

pub use plan::rows_fast;
