//! Lemmas on truth values, options, orders and lists that std has not, for the proofs of the crates above.
//!
//! What std has is taken from std: `Rattle.std.proofs.lemmas.Bool` has `or_left`, `or_right`, `or_from`,
//! `or_parts`, `or_cases`, `and_from`, `and_parts`, `not-true`, `not-false`, `eqb-true` and `eq-eqb`, and
//! `Rattle.std.proofs.lemmas.List` has `append-nil`.
#![tactic(auto)]
