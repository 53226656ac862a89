//! The top calls: reads a script, runs it by its schedule or by worker threads, and writes the
//! replies; makes a script, and writes it or runs it and writes what came of it; or reads node
//! types and writes their canonical text; and answers a status.
#![tactic(auto)]

mod made;
mod status;
mod summary;
mod top;
mod types;
mod words;

// What a program calls that embeds the repository: a run by the schedule, a run by workers, and
// what holds these.
pub use jr_work::{Gate, NoGate, run_steps, run_workers};
pub use status::Status;
pub use top::{LONGEST_INPUT, repo_main, steps_main};
pub use words::{
    Given, Row, Takes, Verb, WordOption, Words, meaning_of_gen, meaning_of_run, meaning_of_steps,
    meaning_of_types, option_given, row_meant, words_meant,
};
