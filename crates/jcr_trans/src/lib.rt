//! Commands of a session, and the texts of their answers (JSR 283, 10 Writing and 5 Reading).
#![tactic(auto)]

mod command;
mod texts;

pub use command::{Command, SessionScript, TreeNode};
pub use texts::{
    done_reply, items_reply, memory_reply, names_reply, null_reply, properties_reply,
    property_reply, refusal_text, revision_reply, text_reply, too_many_reply, vector_reply,
};
