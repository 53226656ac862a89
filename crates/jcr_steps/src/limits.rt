// The bytes of replies.

/// At least the bytes of a reply that tells a revision, as `ok "r1-0-1"` with one of 16, 8 and 8
/// digits, and of one that tells that memory was refused.
pub const COMMIT_REPLY_BYTES: usize = 40;

/// The most bytes of a reply that shows a vector: eight texts of revisions, of 35 bytes each, seven
/// commas between them, `ok `, and the quotes.
pub const VECTOR_REPLY_BYTES: usize = 292;
