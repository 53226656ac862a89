//! The tree of a query of JCR-SQL2 (JSR 283, 6.7 Abstract Query Model).
#![tactic(auto)]

mod query;

pub use query::{
    Column, Condition, DEEPEST, Direction, Join, JoinKind, On, Operand, Operator, Order,
    PropertyOf, Query,
};
