// What stands at the front of some bytes: white space and comments, or a token.
ghost use Rattle.std.specs.Prelude.{◌≡◌, ◌&&◌, ◌||◌, ◌==◌, ◌+◌, ◌<◌, ◌≤◌, IfSome, false, length};
ghost use Rattle.cnd_pieces.specs.Tokens.{bare_from, begins_bare, first_token, gap_after, gap_end, gap_from, gap_size, gap_slash, is_bare, is_space, next_is, quote_from, sign_of};

use crate::piece::{Sign, TokenKind};

/// How far white space and comments are read.
#[derive(Clone, Copy)]
pub enum Gap {
    /// White space.
    Space,
    /// A comment up to the end of its line.
    Line,
    /// The slash of a comment's `/*`, that begins at this offset.
    Opening(usize),
    /// Such a comment.
    Block(usize),
    /// The star of its `*/`.
    Closing,
}

// White space.
fn is_space(byte: u8) -> bool
    ensures { result ≡ is_space byte }
{
    byte == b' ' || byte == b'\t' || byte == b'\r' || byte == b'\n'
}

/// Whether a bare token may have the byte.
pub fn is_bare(byte: u8) -> bool
    ensures { result ≡ is_bare byte }
{
    byte.is_ascii_alphanumeric() || b"_-.:".contains(&byte)
}

// Whether the first byte is this one.
fn next_is(byte: u8, bytes: &[u8]) -> bool
    ensures { result ≡ next_is byte bytes.now }
{
    match bytes {
        [first, ..] => *first == byte,
        [] => false,
    }
}

// What follows a slash at an offset in white space.
fn gap_slash(at: usize, rest: &[u8]) -> Option<Gap>
    ensures { result ≡ gap_slash at rest.now }
{
    if next_is(b'/', rest) {
        return Some(Gap::Line);
    }
    if next_is(b'*', rest) {
        return Some(Gap::Opening(at));
    }
    None
}

// Whether a comment ends with the byte and the one behind it.
fn is_closed(byte: u8, rest: &[u8]) -> bool
    ensures { result ≡ (byte == 42 && next_is 47 rest.now) }
{
    byte == b'*' && next_is(b'/', rest)
}

impl Gap {
    // How white space and comments go on behind a byte at an offset; none where they end before it.
    fn after(self, at: usize, byte: u8, rest: &[u8]) -> Option<Gap>
        ensures { result ≡ gap_after self at byte rest.now }
    {
        match self {
            Gap::Space => {
                if byte == b'/' {
                    return gap_slash(at, rest);
                }
                if is_space(byte) {
                    Some(Gap::Space)
                } else {
                    None
                }
            }
            Gap::Line => {
                if byte == b'\n' {
                    Some(Gap::Space)
                } else {
                    Some(Gap::Line)
                }
            }
            Gap::Opening(begun) => Some(Gap::Block(begun)),
            Gap::Block(begun) => {
                if is_closed(byte, rest) {
                    Some(Gap::Closing)
                } else {
                    Some(Gap::Block(begun))
                }
            }
            Gap::Closing => Some(Gap::Space),
        }
    }

    // Where they end at the text's end.
    fn end(self, at: usize) -> usize
        ensures { result ≡ gap_end self at }
    {
        match self {
            Gap::Space => at,
            Gap::Line => at,
            Gap::Opening(begun) => begun,
            Gap::Block(begun) => begun,
            Gap::Closing => at,
        }
    }
}

// How many bytes of white space and comments stand at the front.
pub(crate) fn gap_size(bytes: &[u8]) -> usize
    ensures size { result ≡ gap_size bytes.now }
    ensures within { result ≤ length bytes.now }
{
    let mut rest = bytes;
    let mut size = 0;
    let mut gap = Gap::Space;
    while let [byte, more @ ..] = rest {
        match gap.after(size, *byte, more) {
            Some(next) => gap = next,
            None => return size,
        }
        rest = more;
        size += 1;
    }
    gap.end(size)
}

// How many bytes of a bare token there are, of which the first is read.
fn bare_size(bytes: &[u8]) -> usize
    ensures size { result ≡ bare_from 1 bytes.now }
    ensures least { 1 ≤ result }
    ensures within { result ≤ 1 + length bytes.now }
{
    let mut rest = bytes;
    let mut size = 1;
    while let [byte, more @ ..] = rest {
        if !is_bare(*byte) {
            break;
        }
        rest = more;
        size += 1;
    }
    size
}

// Whether the byte may stand behind a backslash.
fn is_escaped(byte: u8) -> bool
    ensures { result ≡ (byte == 39 || byte == 92) }
{
    byte == b'\'' || byte == b'\\'
}

// How many bytes a text has, of which the opening quote is read.
fn quote_size(bytes: &[u8]) -> Option<usize>
    ensures size { result ≡ quote_from false 1 bytes.now }
    ensures least { IfSome result (λ size. 2 ≤ size) }
    ensures within { IfSome result (λ size. size ≤ 1 + length bytes.now) }
{
    let mut rest = bytes;
    let mut size = 1;
    let mut escaped = false;
    while let [byte, more @ ..] = rest {
        if escaped {
            if !is_escaped(*byte) {
                return None;
            }
            escaped = false;
        } else if *byte == b'\'' {
            return Some(size + 1);
        } else {
            escaped = *byte == b'\\';
        }
        rest = more;
        size += 1;
    }
    None
}

// The sign of a byte.
fn sign_of(byte: u8) -> Option<Sign>
    ensures { result ≡ sign_of byte }
{
    match byte {
        b'<' => Some(Sign::Less),
        b'>' => Some(Sign::Greater),
        b'=' => Some(Sign::Equal),
        b',' => Some(Sign::Comma),
        b'(' => Some(Sign::Open),
        b')' => Some(Sign::Close),
        b'[' => Some(Sign::OpenSquare),
        b']' => Some(Sign::CloseSquare),
        b'-' => Some(Sign::Minus),
        b'+' => Some(Sign::Plus),
        b'*' => Some(Sign::Star),
        b'!' => Some(Sign::Bang),
        _ => None,
    }
}

// Whether a bare token begins with the byte.
fn begins_bare(behind_less: bool, byte: u8) -> bool
    ensures { result ≡ begins_bare behind_less byte }
{
    is_bare(byte) && (behind_less || byte != b'-')
}

// What the token at the front is, and its size.
pub(crate) fn token_at(behind_less: bool, bytes: &[u8]) -> Option<(TokenKind, usize)>
    ensures token { result ≡ first_token behind_less bytes.now }
    ensures within { IfSome result (λ token. (0 < token.1) × (token.1 ≤ length bytes.now)) }
{
    match bytes {
        [] => None,
        [first, rest @ ..] => {
            if begins_bare(behind_less, *first) {
                return Some((TokenKind::Bare, bare_size(rest)));
            }
            if *first == b'\'' {
                return Some((TokenKind::Quoted, quote_size(rest)?));
            }
            Some((TokenKind::Sign(sign_of(*first)?), 1))
        }
    }
}
