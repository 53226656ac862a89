//! What each step of a session's tasks may answer, what the session makes of the answer, and what
//! is kept of a task for its reply.
#![tactic(auto)]

mod answers;
mod due;
mod errand;
mod limits;
mod shown;
mod tidying;

pub use answers::{
    Attached, Changed, Listed, Loaded, attach_came, changes_came, has_ended, has_went, last_kind,
    list_came, load_came, pinned,
};
pub use due::is_read;
pub use errand::{Came, Errand, Told, errand_came, kind_told, place_of, told_of};
pub use limits::{COMMIT_REPLY_BYTES, VECTOR_REPLY_BYTES};
pub use shown::shown_vector;
pub use tidying::{Tidied, TidyCame, tidy_came};
