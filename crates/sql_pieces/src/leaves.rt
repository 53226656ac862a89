// What words mean by themselves: signs, kinds, names among others, bind variables, texts in quotes.
ghost use Rattle.std.specs.Prelude.{◌≡◌, ◌&&◌, ◌==◌, IfOk, false};
ghost use Rattle.std.specs.Option.{option_copied};
ghost use Rattle.sql_pieces.specs.Leaves.{is_same_word, kind_of_word, one_sign, place_named, sign_named};
ghost use Rattle.sql_pieces.specs.Leaves.{two_signs, unquoted, value_named};

use crate::piece::Sign;
use jr_path::Name;
use jr_value::{ALL_KINDS, Kind, Value};
use std::alloc::{AllocError, Global};

// The sign of one byte.
fn one_sign(byte: u8) -> Option<Sign>
    ensures { result ≡ one_sign byte }
{
    match byte {
        b'*' => Some(Sign::Star),
        b',' => Some(Sign::Comma),
        b'.' => Some(Sign::Dot),
        b'(' => Some(Sign::Open),
        b')' => Some(Sign::Close),
        b'=' => Some(Sign::Equal),
        b'<' => Some(Sign::Less),
        b'>' => Some(Sign::Greater),
        _ => None,
    }
}

// The sign of two bytes.
fn two_signs(first: u8, second: u8) -> Option<Sign>
    ensures { result ≡ two_signs first second }
{
    if first == b'<' {
        if second == b'>' {
            return Some(Sign::Unequal);
        }
        if second == b'=' {
            return Some(Sign::AtMost);
        }
        return None;
    }
    if first == b'>' {
        if second == b'=' {
            return Some(Sign::AtLeast);
        }
    }
    None
}

// The sign that the bytes are.
pub(crate) fn sign_named(bytes: &[u8]) -> Option<Sign>
    ensures { result ≡ sign_named bytes.now }
{
    match bytes {
        [first] => one_sign(*first),
        [first, second] => two_signs(*first, *second),
        _ => None,
    }
}

/// Whether a word is another, but for case.
pub fn is_a(word: &str, text: &[u8]) -> bool
    ensures { result ≡ is_same_word word.now text.now }
{
    word.as_bytes().eq_ignore_ascii_case(text)
}

// The kind that a word names, in any case.
pub(crate) fn kind_named(word: &[u8]) -> Option<Kind>
    ensures { result ≡ kind_of_word word.now }
{
    ALL_KINDS
        .iter()
        .copied()
        .find(|kind| is_a(kind.as_str(), word))
}

/// The place of a name among others, the first where it stands several times. Places from 2^32 on aren't counted.
pub fn place_named(names: &[Name], name: &Name) -> Option<u32>
    ensures { result ≡ place_named names.now name.now }
{
    let mut rest = names;
    let mut place: u32 = 0;
    while let [other, more @ ..] = rest {
        if other.as_str() == name.as_str() {
            return Some(place);
        }
        rest = more;
        place = place.checked_add(1)?;
    }
    None
}

// The value of a bind variable.
pub(crate) fn value_named<'a>(vars: &'a [(Name, Value)], name: &str) -> Option<&'a Value>
    ensures { option_copied result ≡ value_named vars.now name.now }
{
    let mut rest = vars;
    while let [(other, value), more @ ..] = rest {
        if other.as_str() == name {
            return Some(value);
        }
        rest = more;
    }
    None
}

// Whether the byte is the second quote of two.
fn is_second(after_quote: bool, byte: u8) -> bool
    ensures { result ≡ (after_quote && byte == 39) }
{
    after_quote && byte == b'\''
}

// A text without the second of each two quotes.
pub(crate) fn unquoted(alloc: Global, bytes: &[u8]) -> Result<Vec<u8>, AllocError>
    ensures { IfOk result (λ text. text.items ≡ unquoted false bytes.now) }
{
    let mut text = Vec::new(alloc);
    let mut rest = bytes;
    let mut after_quote = false;
    while let [byte, more @ ..] = rest {
        rest = more;
        if is_second(after_quote, *byte) {
            after_quote = false;
            continue;
        }
        text.push(*byte)?;
        after_quote = *byte == b'\'';
    }
    Ok(text)
}
