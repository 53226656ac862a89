// Numbers in lower-case hexadecimal digits, without leading zeros.
ghost use Rattle.std.specs.Prelude.{◌≡◌, ◌+◌, ◌^◌, ◌<◌, ◌≤◌, ◌↔◌, ◌++◌, length, All, IsTrue, IfOk, IfErr};
ghost use Rattle.std.specs.Char.{digit_value};
ghost use Rattle.std.specs.Str.Parse.{digits_value};
ghost use Rattle.arrayvec.specs.ArrayString.{array_string_len};
ghost use Rattle.jr_rev.specs.Digits.{IsHexDigit};
ghost use Rattle.jr_rev.specs.Scan.{IsLongest, TakesNumber, MissesNumber};
ghost use Rattle.jr_rev.specs.Texts.{hexadecimal};

use crate::BadRevision;
use arrayvec::ArrayString;

fn is_hex_digit(byte: u8) -> bool
    ensures { IsTrue result ↔ IsHexDigit byte }
{
    matches!(byte, b'0'..=b'9' | b'a'..=b'f')
}

fn hex_value(byte: u8) -> u8
    requires { IsHexDigit byte }
    ensures value { result ≡ digit_value byte }
    ensures small { result < 16 }
{
    if byte <= b'9' {
        byte - b'0'
    } else {
        byte - b'a' + 10
    }
}

// How many bytes of a number, in at most `most` digits, stand at the front.
fn number_len(text: &[u8], most: usize) -> usize
    requires { 1 ≤ most }
    ensures { IsLongest most text.now result }
{
    if let [b'0', ..] = text {
        return 1;
    }
    let mut len = 0;
    for byte in text {
        if len == most || !is_hex_digit(*byte) {
            return len;
        }
        len += 1;
    }
    len
}

fn number_of(digits: &[u8]) -> u64
    requires hex { All IsHexDigit digits.now }
    requires short { length digits.now ≤ 16 }
    ensures { result ≡ digits_value 16 digits.now }
{
    let mut number: u64 = 0;
    for digit in digits {
        number = number * 16 + u64::from(hex_value(*digit));
    }
    number
}

// The number behind a mark at `at`, and where it ends.
pub fn number_after(
    text: &[u8],
    at: usize,
    mark: u8,
    most: usize,
) -> Result<(u64, usize), BadRevision>
    requires within { at ≤ length text.now }
    requires some { 1 ≤ most }
    requires short { most ≤ 16 }
    ensures found { IfOk result (λ found. TakesNumber mark most text.now at found.0 found.1) }
    ensures bound { IfOk result (λ found. found.0 < 16 ^ most) }
    ensures fault { IfErr result (λ bad. MissesNumber mark text.now at bad.offset) }
{
    if at == text.len() || text[at] != mark {
        return Err(BadRevision { offset: at });
    }
    let len = number_len(&text[at + 1..], most);
    if len == 0 {
        return Err(BadRevision { offset: at + 1 });
    }
    let end = at + 1 + len;
    Ok((number_of(&text[at + 1..end]), end))
}

// Appends a number in lower-case hexadecimal digits, of which there are at most so many.
pub fn put_number(text: &mut ArrayString<35>, number: u64, most: usize)
    requires some { 1 ≤ most }
    requires few { most ≤ 16 }
    requires small { number < 16 ^ most }
    requires room { array_string_len text.old + most ≤ 35 }
    ensures bytes { text.new.bytes ≡ text.old.bytes ++ hexadecimal number }
    ensures len { array_string_len text.new ≤ array_string_len text.old + most }
{
    if number >= 16 {
        put_number(text, number / 16, most - 1);
    }
    text.push(hex_digit((number % 16) as u8));
}

fn hex_digit(value: u8) -> char
    requires { value < 16 }
    ensures digit { IsHexDigit result }
    ensures value { digit_value result ≡ value }
    ensures ascii { result < 128 }
{
    char::from(if value < 10 {
        value + b'0'
    } else {
        value - 10 + b'a'
    })
}
