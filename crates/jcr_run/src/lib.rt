//! A session of a script: where it stands (`SessionRun`), what is to be done for its next command
//! (`Due`), what it reads before that, and what it answers. The session's turns are
//! `jcr_session`'s.
#![tactic(auto)]

mod came;
mod limits;
mod next;
mod reads;
mod run;
mod say;
mod turn;

pub use came::come_on;
pub use limits::MOST_COMMANDS;
pub use next::Due;
pub use reads::read;
pub use run::{Fetch, Phase, Pledge, SessionRun};
pub use say::MEMORY_REPLY;
pub use turn::Turn;
