// Ranges of whole numbers, read from text.
ghost use Rattle.std.specs.Prelude.{◌≡◌, ◌==◌, ◌<◌, ◌^◌, ◌-◌, ◌&&◌, nat_le, cond, true, Some, None, IfSome, int_lt, int_le, length, min, option_and_then, option_map, pos, position};
ghost use Rattle.std.specs.Option.{option_map_or};
ghost use Rattle.std.specs.Str.Parse.{digits_value};
ghost use Rattle.jr_constraint.specs.Constraints.{are_digits, bound_in, is_in_64_bits, is_in_range, number_in, range_between, range_in, ranges_over};

// A range of whole numbers; an end without a number bounds nothing.
#[derive(Clone, Copy)]
pub(crate) struct Range {
    low_open: bool,
    low: Option<i64>,
    high: Option<i64>,
    high_open: bool,
}

// In place of each number that is greater than 64 bits.
const BEYOND: u128 = 1 << 64;

impl Range {
    // Whether the number stands in the range.
    fn has(self, number: i64) -> bool
        ensures { result ≡ is_in_range self number }
    {
        self.is_above_low(number) && self.is_below_high(number)
    }

    fn is_above_low(self, number: i64) -> bool
        ensures { result ≡ option_map_or
            (λ low. cond self.low_open (int_lt low number) (int_le low number)) self.low true }
    {
        match self.low {
            Some(low) => {
                if self.low_open {
                    low < number
                } else {
                    low <= number
                }
            }
            None => true,
        }
    }

    fn is_below_high(self, number: i64) -> bool
        ensures { result ≡ option_map_or
            (λ high. cond self.high_open (int_lt number high) (int_le number high)) self.high true }
    {
        match self.high {
            Some(high) => {
                if self.high_open {
                    number < high
                } else {
                    number <= high
                }
            }
            None => true,
        }
    }
}

// Whether the text is a range in which the number stands.
pub(crate) fn ranges_over(constraint: &str, number: i64) -> bool
    ensures { result ≡ ranges_over constraint.now number }
{
    match range_in(constraint) {
        Some(range) => range.has(number),
        None => false,
    }
}

// The range that a text is: `[` or `(`, an end, a comma, an end, `]` or `)`.
pub(crate) fn range_in(text: &str) -> Option<Range>
    ensures { result ≡ range_in text.now }
{
    match text.as_bytes() {
        [b'[', inner @ .., b']'] => range_between(false, inner, false),
        [b'[', inner @ .., b')'] => range_between(false, inner, true),
        [b'(', inner @ .., b']'] => range_between(true, inner, false),
        [b'(', inner @ .., b')'] => range_between(true, inner, true),
        _ => None,
    }
}

// The range between two brackets, its ends parted by the first comma.
fn range_between(low_open: bool, inner: &[u8], high_open: bool) -> Option<Range>
    ensures { result ≡ range_between low_open inner.now high_open }
{
    match comma_in(inner) {
        Some(comma) => with_ends(
            low_open,
            bound_in(&inner[..comma]),
            bound_in(&inner[comma + 1..]),
            high_open,
        ),
        None => None,
    }
}

// The place of the first comma.
fn comma_in(inner: &[u8]) -> Option<usize>
    ensures place { result ≡ position (λ c. c == 44) inner.now }
    ensures within { IfSome result (λ comma. comma < length inner.now) }
{
    inner.iter().position(|byte| *byte == b',')
}

// The range with these ends, where both are read.
fn with_ends(
    low_open: bool,
    low: Option<Option<i64>>,
    high: Option<Option<i64>>,
    high_open: bool,
) -> Option<Range>
    ensures { result ≡ option_and_then
        (λ low. option_map (λ high. record
        { low_open = low_open; low = low; high = high; high_open = high_open }) high) low }
{
    match (low, high) {
        (Some(low), Some(high)) => Some(Range {
            low_open,
            low,
            high,
            high_open,
        }),
        _ => None,
    }
}

// What stands at an end of a range: nothing, or a number.
fn bound_in(digits: &[u8]) -> Option<Option<i64>>
    ensures { result ≡ bound_in digits.now }
{
    if digits.is_empty() {
        return Some(None);
    }
    match number_in(digits) {
        Some(number) => Some(Some(number)),
        None => None,
    }
}

// A whole number of 64 bits, as digits behind an optional minus sign.
fn number_in(digits: &[u8]) -> Option<i64>
    ensures { result ≡ number_in digits.now }
{
    match digits {
        [b'-', digits @ ..] => within_64_bits(-size_of(digits)?),
        _ => within_64_bits(size_of(digits)?),
    }
}

// The number, where it has 64 bits.
fn within_64_bits(number: i128) -> Option<i64>
    ensures { result ≡ cond (is_in_64_bits number) (Some number) None }
{
    i64::try_from(number).ok()
}

// The number that decimal digits write, or one beyond 64 bits in place of a greater one.
fn size_of(digits: &[u8]) -> Option<i128>
    ensures { result ≡ cond (are_digits digits.now)
        (Some (pos (min (2 ^ 64) (digits_value 10 digits.now)))) None }
{
    if digits.is_empty() {
        return None;
    }
    let mut size: u128 = 0;
    for byte in digits {
        match digit_in(*byte) {
            Some(digit) => size = (size * 10 + digit).min(BEYOND),
            None => return None,
        }
    }
    Some(size as i128)
}

// The number that a decimal digit writes.
fn digit_in(byte: u8) -> Option<u128>
    ensures { result ≡ cond (nat_le 48 byte && nat_le byte 57) (Some (byte - 48)) None }
{
    if byte < b'0' {
        return None;
    }
    if byte > b'9' {
        return None;
    }
    Some((byte - b'0') as u128)
}
