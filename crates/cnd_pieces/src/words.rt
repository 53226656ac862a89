// What words mean by themselves, in any case of their letters.
ghost use Rattle.std.specs.Prelude.{◌≡◌, find};
ghost use Rattle.jr_path.specs.Grammar.{is_prefix_character};
ghost use Rattle.jr_value.specs.Words.{all_kinds, kind_text};
ghost use Rattle.cnd_pieces.specs.Words.{is_a, is_prefix, cnd_kind_named};

use jr_value::{ALL_KINDS, Kind};

/// Whether a word is another, but for case.
pub fn is_a(wanted: &str, word: &str) -> bool
    ensures { result ≡ is_a wanted.now word.now }
{
    wanted.eq_ignore_ascii_case(word)
}

// The kind that a word names.
fn some_kind(word: &str) -> Option<Kind>
    ensures { result ≡ find (λ k. is_a (kind_text k) word.now) all_kinds }
{
    ALL_KINDS
        .iter()
        .copied()
        .find(|kind| is_a(kind.as_str(), word))
}

/// The kind that a word names, none for `undefined`.
pub fn kind_named(word: &str) -> Option<Option<Kind>>
    ensures { result ≡ cnd_kind_named word.now }
{
    if is_a("undefined", word) {
        return Some(None);
    }
    match some_kind(word) {
        Some(kind) => Some(Some(kind)),
        None => None,
    }
}

/// Whether a bare token is a prefix.
pub fn is_prefix(token: &str) -> bool
    ensures { result ≡ is_prefix token.now }
{
    token.as_bytes().iter().all(|byte| is_prefix_byte(*byte))
}

fn is_prefix_byte(byte: u8) -> bool
    ensures { result ≡ is_prefix_character byte }
{
    byte.is_ascii_alphanumeric() || b"_-.".contains(&byte)
}
