//! A query of JCR-SQL2 (JSR 283, 6.7) as far as its selectors: `SELECT columns FROM selector {join}`.
#![tactic(auto)]

mod columns;
mod cursor;
mod names;
mod selected;
mod skims;
mod sources;

pub use cursor::{Cursor, both};
pub use names::only_or;
pub use sources::Sources;
