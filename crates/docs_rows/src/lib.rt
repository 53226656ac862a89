//! Rows of documents: each line of the input is a word and the line of a document, and each line of
//! the output says what it is read as.
#![tactic(auto)]

mod reading;
mod telling;

pub use reading::add;
