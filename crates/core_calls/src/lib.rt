//! Laws of calls: what each event of a history makes of what the next command of a session is run
//! with (its types, its base, the tree there, and its state), and what the session's replies and
//! commits come to.
#![tactic(auto)]

mod calls;
mod commits;
mod replies;
mod turns;

pub use calls::{
    attaches_move_calls, calls_are_at_bases, calls_are_on_trees, logins_begin_calls,
    other_events_leave_calls, others_leave_what_is_asked, refreshes_move_calls,
    replies_answer_calls, sessions_begin_new,
};
pub use commits::{draws_are_known, own_commit_alone, set_entries_are_alone};
pub use replies::replies_begin_with_ok;
pub use turns::{
    attached_sessions_stay_so, bases_stand_until_they_move, commands_begin_behind_replies,
    commands_tell_what_came, cursors_stand_until_they_move,
};
