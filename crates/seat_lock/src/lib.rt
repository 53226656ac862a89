//! A counted lock: a value with a journal under one lock, and passes that know what they have seen of it.
//!
//! `SeatLock::new` takes the value and gives the first pass. `acquire` waits for the turn and takes the value out as a `Hold`; `release` puts it back and counts the new events. `split` and `join` make passes and take them in, and `close` gives the value back to the pass that has all the weight. A contract sees a pass as its view (`specs/Views.antt`) by the words of `specs/Passes.antt`.
#![tactic(auto)]

mod counted;
mod law;
mod lock;
mod pass;
mod rule;

pub use counted::Counted;
pub use law::{parts_after_calls, rule_gives_clauses};
pub use lock::SeatLock;
pub use pass::{Hold, Pass};

#[cfg(test)]
mod tests;
