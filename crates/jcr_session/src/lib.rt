//! A session's turns. `turn` makes a session's commands one after another, by steps of a world that
//! others step too: what the next command asks of the tree at the session's base is read
//! (`jcr_run`), the command is answered or committed, and each reply is said. A turn makes one
//! reading step, where one is due. Else it makes one counted step, in the order of the stages of
//! the next command, or none where the session waits or has ended. A turn leaves the session where
//! the history says that it stands (`SessionRun` of `jcr_run`).
#![tactic(auto)]

mod commit;
mod ends;
mod errand;
mod laws;
mod moves;
mod tidy;
mod turns;

pub use laws::bases_move_for_their_commands;
pub use turns::turn;
