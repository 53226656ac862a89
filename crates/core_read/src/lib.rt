//! The words by which documents and a journal are compared, and what holds of them: entries of
//! documents, edits by revision, what a committer writes, and vectors in use.
#![tactic(auto)]
