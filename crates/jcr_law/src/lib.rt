//! The law of the product, as definitions over a history: what a session's state is, which edits it
//! may start to commit, and which texts its commands may be answered with.
#![tactic(auto)]

mod law;
mod laws;
mod state;

pub use law::JcrLaw;
pub use laws::{drawn_commands_are_answered, starts_are_plans};
pub use state::{Cursor, State};
