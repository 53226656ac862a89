//! Rows of the content: each line of the input is a question about a tree or commits, and these as
//! JSON behind ` | `; each line of the output is the answer.
#![tactic(auto)]

mod definitions;
mod events;
mod json;
mod locks;
mod plans;
mod questions;
mod references;
mod shows;
mod trees;
mod types;
mod versions;
mod view;

pub use questions::add;
