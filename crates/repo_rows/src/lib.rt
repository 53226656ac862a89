//! Scripts, a line each, behind a word for what is to be shown of them: the replies, the documents
//! and events, whether the replies are those that the law lets be said, how many documents a
//! session read, the order of events, or what the plain calls of the machine say of them; what
//! workers leave of a script; the top call over sources and sinks that fail, over bytes that are no
//! text, and for words that read nothing; and the words of command lines. Behind the line == laws a
//! line is a journal with texts, and the answer whether the law lets each be said there.
#![tactic(auto)]

mod cases;
mod copies;
mod events;
mod loads;
mod past;
mod plays;
mod runs;
mod scripts;
mod sections;
mod told;
mod workers;

pub use sections::Repo;
