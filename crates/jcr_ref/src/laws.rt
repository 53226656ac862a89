// Laws of the texts of identifiers.
ghost use Rattle.std.specs.Prelude.{◌≡◌, ℕ, Some};
ghost use Rattle.jr_value.specs.Words.{identifier_named, identifier_text};
ghost use Rattle.jcr_ref.specs.References.{identifier, identifier_number, uuid_text};

/// The text of a session's identifier is the one that `uuid` prints for its number and reads as this number again;
/// and the text that a reference's number is compared by is the one that `uuid` prints.
pub fn identifiers_are_uuids()
    ensures printed { (session count : ℕ) → identifier_text (identifier_number session count) ≡ identifier session count }
    ensures read { (session count : ℕ) → identifier_named (identifier session count) ≡ Some (identifier_number session count) }
    ensures texts { (n : ℕ) → identifier_text n ≡ uuid_text n }
{}
