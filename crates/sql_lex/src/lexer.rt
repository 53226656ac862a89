// A text cut into tokens.
ghost use Rattle.std.specs.Prelude.{◌≡◌, ◌<◌, ◌≤◌, IfOk, IfErr, length};
ghost use Rattle.sql_lex.specs.Tokens.{AreTokens, IsLexFault, Stops};

use crate::scan::{is_space, token_at};
use crate::{LexFault, Token};
use std::alloc::{AllocError, Global};

/// The tokens at the front of a text, and where they stop.
#[derive(Drop)]
pub struct Front {
    pub tokens: Vec<Token>,
    /// The offset of the first byte of the first piece that is no token, or the text's length.
    pub stop: usize,
}

/// Cuts a text into tokens, each as long as it can be, up to its end or to the first piece that is no token. Space,
/// tab, carriage return and line feed may stand between tokens. Only want of memory is an error.
pub fn cut(alloc: Global, text: &str) -> Result<Front, AllocError>
    ensures tokens { IfOk result (λ cut. AreTokens text.now 0 cut.tokens.items cut.stop) }
    ensures stop { IfOk result (λ cut. Stops text.now cut.stop) }
    ensures within { IfOk result (λ cut. cut.stop ≤ length text.now) }
{
    let bytes = text.as_bytes();
    let mut tokens = Vec::new(alloc);
    let mut at = 0;
    while at < bytes.len() {
        if is_space(bytes[at]) {
            at += 1;
            continue;
        }
        let Some((kind, size)) = token_at(&bytes[at..]) else {
            break;
        };
        tokens.push(Token {
            kind,
            start: at,
            end: at + size,
        })?;
        at += size;
    }
    Ok(Front { tokens, stop: at })
}

/// Cuts a text into tokens that are slices of it, in order, with nothing but white space (space, tab, carriage
/// return, line feed) before, between and behind them. Each token is as long as it can be. `InvalidQuery` has the
/// offset of the first byte of the first piece that is no token.
pub fn lex(alloc: Global, text: &str) -> Result<Vec<Token>, LexFault>
    ensures tokens { IfOk result (λ tokens. AreTokens text.now 0 tokens.items (length text.now)) }
    ensures fault { IfErr result (IsLexFault text.now) }
{
    let cut = cut(alloc, text)?;
    if cut.stop < text.len() {
        Err(LexFault::InvalidQuery(cut.stop))
    } else {
        Ok(cut.tokens)
    }
}
