//! Rows of documents that are opened: each line of the input is JSON with `documents`, the number
//! of `clusters` and that of `sessions`; the output has the lines of the documents that a
//! repository begins with, or the rule that is broken, with the document that breaks it.
#![tactic(auto)]

mod cases;

pub use cases::add;
