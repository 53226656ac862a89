//! Rows of the lowest crates, of queries and of scripts: each line of the input is a text to be
//! read or asked, and each line of the output says what it is read as, or what is wrong with it. A
//! line that begins with == tells what the lines behind it are of.
#![tactic(auto)]

mod commands;
mod ends;
mod marks;
mod parts;
mod queries;
mod replies;
mod scripts;
mod sections;
mod texts;
mod trees;
mod types;
mod values;
mod vectors;

pub use sections::Base;
