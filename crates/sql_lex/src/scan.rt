// The token at the front of some bytes.
ghost use Rattle.std.specs.Prelude.{◌≡◌, ◌+◌, ◌<◌, ◌≤◌, ℕ, true, IfSome, length};
ghost use Rattle.sql_lex.specs.Tokens.{bracket_size, closing, digits_size, longest_token, is_blank, is_word_byte, negative, begins_with_byte, sign_size, text_size, variable, word_size};

use crate::TokenKind;

// White space.
pub(crate) fn is_space(byte: u8) -> bool
    ensures { result ≡ is_blank byte }
{
    byte == b' ' || byte == b'\t' || byte == b'\r' || byte == b'\n'
}

// Whether a word goes on with the byte.
fn is_word_byte(byte: u8) -> bool
    ensures { result ≡ is_word_byte byte }
{
    byte.is_ascii_alphanumeric() || byte == b'_'
}

// How many bytes at the front may go on a word.
fn word_size(bytes: &[u8]) -> usize
    ensures size { result ≡ word_size bytes.now }
    ensures within { result ≤ length bytes.now }
{
    let mut rest = bytes;
    let mut size = 0;
    while let [byte, more @ ..] = rest {
        if !is_word_byte(*byte) {
            break;
        }
        rest = more;
        size += 1;
    }
    size
}

// How many digits there are at the front.
fn digits_size(bytes: &[u8]) -> usize
    ensures size { result ≡ digits_size bytes.now }
    ensures within { result ≤ length bytes.now }
{
    let mut rest = bytes;
    let mut size = 0;
    while let [byte, more @ ..] = rest {
        if !byte.is_ascii_digit() {
            break;
        }
        rest = more;
        size += 1;
    }
    size
}

// How many bytes there are behind an opened bracket, up to the one that closes it and with that.
fn bracket_size(bytes: &[u8]) -> Option<usize>
    ensures size { result ≡ bracket_size bytes.now }
    ensures within { IfSome result (λ size. size ≤ length bytes.now) }
{
    let mut rest = bytes;
    let mut size = 0;
    while let [byte, more @ ..] = rest {
        rest = more;
        size += 1;
        if *byte == b']' {
            return Some(size);
        }
    }
    None
}

// How many bytes there are behind an opening quote, up to the one that closes it and with that.
fn text_size(bytes: &[u8]) -> Option<usize>
    ensures size { result ≡ text_size bytes.now }
    ensures within { IfSome result (λ size. size ≤ length bytes.now) }
{
    let mut inside = true;
    let mut rest = bytes;
    let mut size = 0;
    while let [byte, more @ ..] = rest {
        if *byte == b'\'' {
            inside = !inside;
        } else if !inside {
            return Some(size);
        }
        rest = more;
        size += 1;
    }
    if inside { None } else { Some(size) }
}

// Whether the first byte is this one.
fn next_is(byte: u8, bytes: &[u8]) -> bool
    ensures { result ≡ begins_with_byte byte bytes.now }
{
    match bytes {
        [first, ..] => *first == byte,
        [] => false,
    }
}

// How many bytes the sign has that begins with the first byte.
fn sign_size(first: u8, rest: &[u8]) -> Option<usize>
    ensures size { result ≡ sign_size first rest.now }
    ensures within { IfSome result (λ size. (0 < size) × (size ≤ 1 + length rest.now)) }
{
    match first {
        b'*' | b',' | b'.' | b'(' | b')' | b'=' => Some(1),
        b'<' => {
            if next_is(b'=', rest) || next_is(b'>', rest) {
                Some(2)
            } else {
                Some(1)
            }
        }
        b'>' => {
            if next_is(b'=', rest) {
                Some(2)
            } else {
                Some(1)
            }
        }
        _ => None,
    }
}

// How many bytes of a number there are behind its `-`.
fn negative(bytes: &[u8]) -> Option<usize>
    ensures size { result ≡ negative bytes.now }
    ensures within { IfSome result (λ size. size ≤ length bytes.now) }
{
    match digits_size(bytes) {
        0 => None,
        size => Some(size),
    }
}

// How many bytes of a variable there are behind its `$`.
fn variable(bytes: &[u8]) -> Option<usize>
    ensures size { result ≡ variable bytes.now }
    ensures within { IfSome result (λ size. size ≤ length bytes.now) }
{
    match bytes {
        [] => None,
        [first, rest @ ..] => {
            if first.is_ascii_alphabetic() {
                Some(word_size(rest) + 1)
            } else if *first == b'[' {
                let size = bracket_size(rest)?;
                Some(size + 1)
            } else {
                None
            }
        }
    }
}

// The kind and the size of the token at the front.
pub(crate) fn token_at(bytes: &[u8]) -> Option<(TokenKind, usize)>
    ensures token { result ≡ longest_token bytes.now }
    ensures within { IfSome result (λ token. (0 < token.1) × (token.1 ≤ length bytes.now)) }
{
    match bytes {
        [] => None,
        [first, rest @ ..] => {
            if first.is_ascii_alphabetic() {
                Some((TokenKind::Word, word_size(rest) + 1))
            } else if first.is_ascii_digit() {
                Some((TokenKind::Number, digits_size(rest) + 1))
            } else if *first == b'-' {
                Some((TokenKind::Number, negative(rest)? + 1))
            } else if *first == b'[' {
                Some((TokenKind::Bracketed, bracket_size(rest)? + 1))
            } else if *first == b'\'' {
                Some((TokenKind::Text, text_size(rest)? + 1))
            } else if *first == b'$' {
                Some((TokenKind::Variable, variable(rest)? + 1))
            } else {
                Some((TokenKind::Sign, sign_size(*first, rest)?))
            }
        }
    }
}
