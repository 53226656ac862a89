// A text cut into tokens, with what each says.
ghost use Rattle.std.specs.Prelude.{◌≡◌, ◌==◌, ◌&&◌, IfOk, false, not};
ghost use Rattle.cnd_pieces.specs.Pieces.{ArePieces, IsDefault, IsNameOrNone, IsReadAs, IsSaid, Means, content, inner, left_behind, place_behind, unescaped};

use crate::context::Context;
use crate::piece::{Placed, Says, TokenKind};
use crate::scan::{gap_size, token_at};
use jr_path::{Name, Text};
use jr_value::{Value, name_of};
use std::alloc::{AllocError, Global};

// Without the first and the last byte.
fn inner(bytes: &[u8]) -> &[u8]
    ensures { result.now ≡ inner bytes.now }
{
    match bytes {
        [_, inner @ .., _] => inner,
        _ => &[],
    }
}

// Whether the byte is a backslash before another byte.
fn is_escape(escaped: bool, byte: u8) -> bool
    ensures { result ≡ (not escaped && byte == 92) }
{
    !escaped && byte == b'\\'
}

// A text without the backslash before each quote and backslash.
fn unescaped(alloc: Global, bytes: &[u8]) -> Result<Vec<u8>, AllocError>
    ensures { IfOk result (λ text. text.items ≡ unescaped false bytes.now) }
{
    let mut text = Vec::new(alloc);
    let mut rest = bytes;
    let mut escaped = false;
    while let [byte, more @ ..] = rest {
        rest = more;
        if is_escape(escaped, *byte) {
            escaped = true;
            continue;
        }
        text.push(*byte)?;
        escaped = false;
    }
    Ok(text)
}

fn bare_says(alloc: Global, context: Context, text: &str) -> Result<Says, AllocError>
    ensures { IfOk result (IsSaid context TokenKind.Bare text.now) }
{
    match name_of(alloc, text)? {
        Some(name) => Ok(Says::Name(name)),
        None => Ok(Says::Bare(Text::copy_of(alloc, text)?)),
    }
}

// The value that a text is as a default, where one may stand.
fn default_of(alloc: Global, context: Context, text: &str) -> Result<Option<Value>, AllocError>
    ensures { IfOk result (IsDefault context text.now) }
{
    match context {
        Context::Default(kind) => Value::from_text(alloc, kind, text),
        _ => Ok(None),
    }
}

fn quoted_says(alloc: Global, context: Context, text: &str) -> Result<Says, AllocError>
    ensures { IfOk result (IsSaid context TokenKind.Quoted text.now) }
{
    let name = name_of(alloc, text)?;
    let value = default_of(alloc, context, text)?;
    let text = Text::copy_of(alloc, text)?;
    Ok(Says::Quoted(text, name, value))
}

// What a text that is written in a token says.
fn text_says(
    alloc: Global,
    context: Context,
    kind: TokenKind,
    text: &str,
) -> Result<Says, AllocError>
    ensures { IfOk result (IsSaid context kind text.now) }
{
    match kind {
        TokenKind::Bare => bare_says(alloc, context, text),
        TokenKind::Quoted => quoted_says(alloc, context, text),
        TokenKind::Sign(sign) => Ok(Says::Sign(sign)),
    }
}

// What bytes that are written in a token say.
fn bytes_say(
    alloc: Global,
    context: Context,
    kind: TokenKind,
    bytes: &[u8],
) -> Result<Says, AllocError>
    ensures { IfOk result (Means context kind bytes.now) }
{
    match str::from_utf8(bytes) {
        Ok(text) => text_says(alloc, context, kind, text),
        Err(_) => Ok(Says::Nothing),
    }
}

// What a text of these bytes in quotes says.
fn quote_says(alloc: Global, context: Context, bytes: &[u8]) -> Result<Says, AllocError>
    ensures { IfOk result (Means context TokenKind.Quoted (unescaped false (inner bytes.now))) }
{
    let text = unescaped(alloc, inner(bytes))?;
    bytes_say(alloc, context, TokenKind::Quoted, text.as_slice())
}

// What a token of these bytes says.
fn token_says(
    alloc: Global,
    context: Context,
    kind: TokenKind,
    bytes: &[u8],
) -> Result<Says, AllocError>
    ensures { IfOk result (Means context kind (content kind bytes.now)) }
{
    match kind {
        TokenKind::Quoted => quote_says(alloc, context, bytes),
        TokenKind::Bare => bytes_say(alloc, context, kind, bytes),
        TokenKind::Sign(_) => bytes_say(alloc, context, kind, bytes),
    }
}

/// What a text says, token by token, up to its end or to the first bytes that are no token.
pub fn pieces_of(alloc: Global, text: &str) -> Result<Vec<Placed>, AllocError>
    ensures { IfOk result (λ pieces. IsReadAs text.now pieces.items) }
{
    let bytes = text.as_bytes();
    let mut pieces = Vec::new(alloc);
    let mut context = Context::Elsewhere;
    let mut at = gap_size(bytes);
    let mut rest = &bytes[at..];
    while let [_, ..] = rest {
        let Some((kind, size)) = token_at(context.is_behind_less(), rest) else {
            pieces.push(Placed {
                start: at,
                says: Says::Nothing,
            })?;
            return Ok(pieces);
        };
        let says = token_says(alloc, context, kind, &rest[..size])?;
        context = context.after(&says);
        pieces.push(Placed { start: at, says })?;
        let more = &rest[size..];
        let gap = gap_size(more);
        at += size + gap;
        rest = &more[gap..];
    }
    Ok(pieces)
}
