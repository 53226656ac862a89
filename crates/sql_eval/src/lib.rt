//! Rows of queries in JCR-SQL2 (JSR 283, 6 Query): all tuples of nodes of the selectors, joined, filtered, ordered
//! and projected.
#![tactic(auto)]

mod condition;
mod evaluate;
mod join;
mod key;
mod laws;
mod lists;
mod operand;
mod order;
mod row;
mod sorting;
mod text;
mod tuple;

pub use condition::holds;
pub use evaluate::{rows, rows_in_order, that_pass};
pub use join::{has_type, joins, singles, type_properties};
pub use laws::{rows_are_one, same_queries_have_same_rows};
pub use row::{Cell, Row};
pub use text::rows_text;
pub use tuple::{Spot, Tuple, property_in};
