//! Type definitions printed in canonical form, and that what is printed is read back.
#![tactic(auto)]

mod laws;
mod printing;

pub use laws::{
    bare_names_are_tokens, canonical_texts_are_read_back, equal_meanings_print_alike,
    meanings_can_be_printed, printed_texts_are_tokens, printed_values_are_read_back,
};
pub use printing::print_cnd;
