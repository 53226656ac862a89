//! Rows of documents and of background work: each line of the input changes a document of a table,
//! undoes or removes one, reads a node or its children, or is of the memory of a cluster node;
//! behind the line == tasks it is a task over a table of documents at rest, and each line of the
//! output has the steps for which its automaton asks, with what they came to, and its end.
#![tactic(auto)]

mod asks;
mod background;
mod changes;
mod collections;
mod commits;
mod letters;
mod nodes;
mod observed;
mod reading;
mod recoveries;
mod replies;
mod sections;
mod settings;
mod splits;
mod tables;
mod tasks;
mod texts;
mod updates;

pub use sections::Store;
