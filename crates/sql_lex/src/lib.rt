//! Texts of JCR-SQL2 (JSR 283, 6.7) cut into tokens.
#![tactic(auto)]

mod laws;
mod lexer;
mod scan;
mod token;

pub use laws::one_cut;
pub use lexer::{Front, cut, lex};
pub use token::{LexFault, Token, TokenKind};
