// Tokens, read one by one for what they say.
ghost use Rattle.std.specs.Prelude.{◌≡◌, IfOk, length};
ghost use Rattle.sql_pieces.specs.Pieces.{AreSqlPieces, IsCast, IsPiece, IsReadAsSql, IsSaidInSql, MeansInSql, cast_kind, token_content, within_quotes, token_bytes, unbracketed, variable_name};

use crate::leaves::{is_a, kind_named, sign_named, unquoted, value_named};
use crate::piece::{Placed, Says};
use jr_path::{DeepCopy, Name, Path, Text};
use jr_value::{Kind, Value, name_of, path_of, whole_number};
use sql_lex::{Token, TokenKind, cut};
use std::alloc::{AllocError, Global};

// The bytes of a token.
fn token_bytes(text: &[u8], token: Token) -> &[u8]
    ensures { result.now ≡ token_bytes text.now token }
{
    if token.start <= token.end {
        if token.end <= text.len() {
            return &text[token.start..token.end];
        }
    }
    &[]
}

// Without the first and the last byte.
fn inner(bytes: &[u8]) -> &[u8]
    ensures { result.now ≡ within_quotes bytes.now }
{
    if bytes.len() < 2 {
        return &[];
    }
    &bytes[1..bytes.len() - 1]
}

fn unbracketed(bytes: &[u8]) -> &[u8]
    ensures { result.now ≡ unbracketed bytes.now }
{
    match bytes {
        [first, ..] => { if *first == b'[' { inner(bytes) } else { bytes } }
        [] => bytes,
    }
}

// Behind `$`, without brackets.
fn variable_name(bytes: &[u8]) -> &[u8]
    ensures { result.now ≡ variable_name bytes.now }
{
    match bytes {
        [_, rest @ ..] => unbracketed(rest),
        [] => bytes,
    }
}

// The kind of a CAST, where `AS` and a kind's word stand behind its text.
fn cast_kind(text: &[u8], behind: &[Token]) -> Option<Kind>
    ensures { result ≡ cast_kind text.now behind.now }
{
    match behind {
        [first, second, ..] => {
            if is_a("as", token_bytes(text, *first)) {
                kind_named(token_bytes(text, *second))
            } else {
                None
            }
        }
        _ => None,
    }
}

fn word_says(
    alloc: Global,
    text: &str,
    vars: &[(Name, Value)],
    cast: Option<Kind>,
) -> Result<Says, AllocError>
    ensures { IfOk result (IsSaidInSql vars.now cast TokenKind.Word text.now) }
{
    match name_of(alloc, text)? {
        Some(name) => Ok(Says::Word(name)),
        None => Ok(Says::Nothing),
    }
}

fn bracketed_says(
    alloc: Global,
    text: &str,
    vars: &[(Name, Value)],
    cast: Option<Kind>,
) -> Result<Says, AllocError>
    ensures { IfOk result (IsSaidInSql vars.now cast TokenKind.Bracketed text.now) }
{
    match name_of(alloc, text)? {
        Some(name) => Ok(Says::Bracketed(name)),
        None => match path_of(alloc, text)? {
            Some(path) => Ok(Says::Path(path)),
            None => Ok(Says::Nothing),
        },
    }
}

// The value of a text in a CAST.
fn cast_of(alloc: Global, text: &str, cast: Option<Kind>) -> Result<Option<Value>, AllocError>
    ensures { IfOk result (IsCast cast text.now) }
{
    match cast {
        Some(kind) => Value::from_text(alloc, kind, text),
        None => Ok(None),
    }
}

fn text_says(
    alloc: Global,
    text: &str,
    vars: &[(Name, Value)],
    cast: Option<Kind>,
) -> Result<Says, AllocError>
    ensures { IfOk result (IsSaidInSql vars.now cast TokenKind.Text text.now) }
{
    let path = path_of(alloc, text)?;
    let value = cast_of(alloc, text, cast)?;
    let text = Text::copy_of(alloc, text)?;
    Ok(Says::Text(text, path, value))
}

fn number_says(text: &str, vars: &[(Name, Value)], cast: Option<Kind>) -> Says
    ensures { IsSaidInSql vars.now cast TokenKind.Number text.now result }
{
    match whole_number(text) {
        Some(number) => Says::Number(number),
        None => Says::Nothing,
    }
}

fn variable_says(text: &str, vars: &[(Name, Value)], cast: Option<Kind>) -> Result<Says, AllocError>
    ensures { IfOk result (IsSaidInSql vars.now cast TokenKind.Variable text.now) }
{
    match value_named(vars, text) {
        Some(value) => Ok(Says::Variable(value.copy()?)),
        None => Ok(Says::Nothing),
    }
}

fn sign_says(text: &str, vars: &[(Name, Value)], cast: Option<Kind>) -> Says
    ensures { IsSaidInSql vars.now cast TokenKind.Sign text.now result }
{
    match sign_named(text.as_bytes()) {
        Some(sign) => Says::Sign(sign),
        None => Says::Nothing,
    }
}

// What a text that is written in a token says.
fn text_of_kind_says(
    alloc: Global,
    kind: TokenKind,
    text: &str,
    vars: &[(Name, Value)],
    cast: Option<Kind>,
) -> Result<Says, AllocError>
    ensures { IfOk result (IsSaidInSql vars.now cast kind text.now) }
{
    match kind {
        TokenKind::Word => Ok(word_says(alloc, text, vars, cast)?),
        TokenKind::Bracketed => Ok(bracketed_says(alloc, text, vars, cast)?),
        TokenKind::Text => Ok(text_says(alloc, text, vars, cast)?),
        TokenKind::Number => Ok(number_says(text, vars, cast)),
        TokenKind::Variable => Ok(variable_says(text, vars, cast)?),
        TokenKind::Sign => Ok(sign_says(text, vars, cast)),
    }
}

// What bytes that are written in a token say.
fn bytes_say(
    alloc: Global,
    kind: TokenKind,
    bytes: &[u8],
    vars: &[(Name, Value)],
    cast: Option<Kind>,
) -> Result<Says, AllocError>
    ensures { IfOk result (MeansInSql vars.now cast kind bytes.now) }
{
    match str::from_utf8(bytes) {
        Ok(text) => Ok(text_of_kind_says(alloc, kind, text, vars, cast)?),
        Err(_) => Ok(Says::Nothing),
    }
}

// What a token of these bytes says.
fn token_says(
    alloc: Global,
    kind: TokenKind,
    bytes: &[u8],
    vars: &[(Name, Value)],
    cast: Option<Kind>,
) -> Result<Says, AllocError>
    ensures { IfOk result (MeansInSql vars.now cast kind (token_content kind bytes.now)) }
{
    match kind {
        TokenKind::Text => {
            let text = unquoted(alloc, inner(bytes))?;
            Ok(bytes_say(alloc, kind, text.as_slice(), vars, cast)?)
        }
        TokenKind::Bracketed => Ok(bytes_say(alloc, kind, inner(bytes), vars, cast)?),
        TokenKind::Variable => Ok(bytes_say(alloc, kind, variable_name(bytes), vars, cast)?),
        TokenKind::Word => Ok(bytes_say(alloc, kind, bytes, vars, cast)?),
        TokenKind::Number => Ok(bytes_say(alloc, kind, bytes, vars, cast)?),
        TokenKind::Sign => Ok(bytes_say(alloc, kind, bytes, vars, cast)?),
    }
}

// What a token says, with those behind it.
fn piece_of(
    alloc: Global,
    text: &[u8],
    vars: &[(Name, Value)],
    token: Token,
    behind: &[Token],
) -> Result<Placed, AllocError>
    ensures { IfOk result (IsPiece text.now vars.now token behind.now) }
{
    let says = token_says(
        alloc,
        token.kind,
        token_bytes(text, token),
        vars,
        cast_kind(text, behind),
    )?;
    Ok(Placed {
        start: token.start,
        says,
    })
}

// What each token says.
fn token_pieces(
    alloc: Global,
    text: &[u8],
    vars: &[(Name, Value)],
    tokens: &[Token],
) -> Result<Vec<Placed>, AllocError>
    ensures { IfOk result (λ pieces. AreSqlPieces text.now vars.now tokens.now pieces.items) }
{
    let mut pieces = Vec::new(alloc);
    let mut rest = tokens;
    while let [token, more @ ..] = rest {
        let piece = piece_of(alloc, text, vars, *token, more)?;
        pieces.push(piece)?;
        rest = more;
    }
    Ok(pieces)
}

/// What a text says, token by token.
pub fn pieces_of(
    alloc: Global,
    text: &str,
    vars: &[(Name, Value)],
) -> Result<Vec<Placed>, AllocError>
    ensures { IfOk result (λ pieces. IsReadAsSql text.now vars.now pieces.items) }
{
    let front = cut(alloc, text)?;
    let mut pieces = token_pieces(alloc, text.as_bytes(), vars, front.tokens.as_slice())?;
    if front.stop < text.len() {
        pieces.push(Placed {
            start: front.stop,
            says: Says::Nothing,
        })?;
        return Ok(pieces);
    }
    Ok(pieces)
}
