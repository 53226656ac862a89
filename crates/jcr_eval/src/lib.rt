//! Whether the law lets a text be said, by plain calls that go over a whole journal for each of its
//! events. The calls are slow, and say exactly what the law says: tests of sessions and of the law
//! itself stand on them.
#![tactic(auto)]

mod commits;
mod events;
mod moves;
mod queries;
mod replies;
mod say;
mod tasks;
mod view;

pub use say::eval;
