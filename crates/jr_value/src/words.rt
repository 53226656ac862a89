// The words of kinds, and the texts of identifiers.
ghost use Rattle.std.specs.Prelude.{◌≡◌, IfOk, string_bytes};
ghost use Rattle.jr_value.specs.Words.{all_kinds, identifier_text, kind_named, kind_text};

use crate::value::{ALL_KINDS, Kind};
use std::alloc::{AllocError, Global};
use uuid::Uuid;

impl Kind {
    /// The lower-case word for the kind, as `weakreference`.
    pub fn as_str(&self) -> &str
        ensures { result.now ≡ kind_text self.now }
    {
        match self {
            Kind::Str => "string",
            Kind::Binary => "binary",
            Kind::Long => "long",
            Kind::Date => "date",
            Kind::Boolean => "boolean",
            Kind::Name => "name",
            Kind::Path => "path",
            Kind::Reference => "reference",
            Kind::WeakReference => "weakreference",
            Kind::Uri => "uri",
        }
    }

    /// The kind that has this lower-case word, as `as_str` gives it.
    pub fn from_word(word: &str) -> Option<Kind>
        ensures { result ≡ kind_named all_kinds word.now }
    {
        ALL_KINDS.iter().copied().find(|kind| kind.as_str() == word)
    }
}

/// The hyphenated text of an identifier's number, in lower case (RFC 9562).
pub fn identifier_text(alloc: Global, id: u128) -> Result<String, AllocError>
    ensures { IfOk result (λ text. string_bytes text ≡ identifier_text id) }
{
    let mut buffer = Uuid::encode_buffer();
    let text = Uuid::from_u128(id).hyphenated().encode_lower(&mut buffer);
    String::from_str(alloc, text)
}
