// The attributes that words name, in any case of their letters.
ghost use Rattle.std.specs.Prelude.{◌≡◌};
ghost use Rattle.cnd_pieces.specs.Words.{is_a};
ghost use Rattle.jr_cnd.specs.Words.{is_either, item_word, opv_named, type_word};

use cnd_pieces::is_a;
use jr_types::OnParentVersion;

/// An attribute of a type.
#[derive(Clone, Copy)]
pub enum TypeWord {
    Mixin,
    Abstract,
    Orderable,
    PrimaryItem,
}

/// An attribute of an item.
#[derive(Clone, Copy)]
pub enum ItemWord {
    Mandatory,
    Autocreated,
    Protected,
    Multiple,
    Opv(OnParentVersion),
}

// What a check-in of the parent may do with an item.
const ALL_OPVS: [OnParentVersion; 6] = [
    OnParentVersion::Copy,
    OnParentVersion::Version,
    OnParentVersion::Initialize,
    OnParentVersion::Compute,
    OnParentVersion::Ignore,
    OnParentVersion::Abort,
];

// Whether a word is one of two others, but for case.
fn is_either(whole: &str, short: &str, word: &str) -> bool
    ensures { result ≡ is_either whole.now short.now word.now }
{
    is_a(whole, word) || is_a(short, word)
}

fn opv_named(word: &str) -> Option<OnParentVersion>
    ensures { result ≡ opv_named word.now }
{
    ALL_OPVS
        .iter()
        .copied()
        .find(|opv| is_a(opv.as_str(), word))
}

// The attribute of a type that a word names.
pub(crate) fn type_word(word: &str) -> Option<TypeWord>
    ensures { result ≡ type_word word.now }
{
    if is_either("mixin", "m", word) {
        return Some(TypeWord::Mixin);
    }
    if is_either("abstract", "a", word) {
        return Some(TypeWord::Abstract);
    }
    if is_either("orderable", "o", word) {
        return Some(TypeWord::Orderable);
    }
    if is_a("primaryitem", word) {
        return Some(TypeWord::PrimaryItem);
    }
    None
}

// The attribute of an item that a word names.
pub(crate) fn item_word(word: &str) -> Option<ItemWord>
    ensures { result ≡ item_word word.now }
{
    if is_either("mandatory", "m", word) {
        return Some(ItemWord::Mandatory);
    }
    if is_either("autocreated", "a", word) {
        return Some(ItemWord::Autocreated);
    }
    if is_either("protected", "p", word) {
        return Some(ItemWord::Protected);
    }
    if is_a("multiple", word) {
        return Some(ItemWord::Multiple);
    }
    match opv_named(word) {
        Some(opv) => Some(ItemWord::Opv(opv)),
        None => None,
    }
}
