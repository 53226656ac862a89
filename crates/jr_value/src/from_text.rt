// What a text is: a value of a kind, a whole number, a name, a path, an identifier.
ghost use Rattle.std.specs.Prelude.{◌≡◌, ◌≢◌, IfOk, OnOk, List as Seq, ℕ, ℤ, MatchOption};
ghost use Rattle.jr_path.specs.Grammar.{IsName};
ghost use Rattle.jr_value.specs.Texts.{boolean_named, IsFound, IsPathWithin, IsText, IsWholeNumber};
ghost use Rattle.jr_value.specs.Words.{identifier_named};

use crate::value::{Kind, Value};
use base64::DecodeAllocError;
use base64::engine::general_purpose::STANDARD;
use jr_path::{List, Name, Path, PathFault, Text};
use std::alloc::{AllocError, Global};
use uuid::Uuid;

impl Value {
    /// The value of a kind that a text is, or none (JSR 283, 3.6.4 Property Type Conversion, by the texts of this
    /// profile): any text is a STRING and a URI; decimal digits of a number of 64 bits, with `-` before them or
    /// not, a LONG, and a DATE in milliseconds; `true` and `false` are a BOOLEAN; Base64 of RFC 4648 with padding is
    /// a BINARY; a NAME and a PATH are as `Name::parse` and `Path::parse` read them, and a REFERENCE and a
    /// WEAKREFERENCE a hyphenated identifier in either case of its digits.
    pub fn from_text(alloc: Global, kind: Kind, text: &str) -> Result<Option<Value>, AllocError>
        ensures { IfOk result (IsFound (IsText kind text.now)) }
    {
        match kind {
            Kind::Str => string_value(alloc, text),
            Kind::Binary => binary_value(alloc, text),
            Kind::Long => Ok(whole_number(text).map(Value::Long)),
            Kind::Date => Ok(whole_number(text).map(Value::Date)),
            Kind::Boolean => Ok(boolean_named(text).map(Value::Boolean)),
            Kind::Name => name_value(alloc, text),
            Kind::Path => path_value(alloc, text),
            Kind::Reference => Ok(identifier_named(text).map(Value::Reference)),
            Kind::WeakReference => Ok(identifier_named(text).map(Value::WeakReference)),
            Kind::Uri => uri_value(alloc, text),
        }
    }
}

/// The whole number that a text is: decimal digits, any zeros first, with `-` before them or not, of a number from
/// -2^63 to 2^63 - 1. A `+` before them is refused.
pub fn whole_number(text: &str) -> Option<i64>
    ensures { MatchOption result ((n : ℤ) → ¬ IsWholeNumber text.now n) (IsWholeNumber text.now) }
{
    match text.as_bytes() {
        [b'+', ..] => None,
        _ => match text.parse::<i64>() {
            Ok(number) => Some(number),
            Err(_) => None,
        },
    }
}

/// The name that a text is (JSR 283, 3.2 Names), where it is one.
pub fn name_of(alloc: Global, text: &str) -> Result<Option<Name>, AllocError>
    ensures { IfOk result (λ found.
        MatchOption found (¬ IsName text.now) (λ name. IsName text.now × (name ≡ text.now))) }
{
    match Name::parse(alloc, text) {
        Ok(name) => Ok(Some(name)),
        Err(fault) => {
            refused(fault)?;
            Ok(None)
        }
    }
}

/// The path that a text is (JSR 283, 3.4 Paths), where it is one within the limits of 64 names and 1,024 bytes.
pub fn path_of(alloc: Global, text: &str) -> Result<Option<Path>, AllocError>
    ensures { IfOk result (λ found. MatchOption found
        ((path : Seq (Seq ℕ)) → ¬ IsPathWithin text.now path) (IsPathWithin text.now)) }
{
    match Path::parse(alloc, text) {
        Ok(path) => Ok(Some(path)),
        Err(fault) => {
            refused(fault)?;
            Ok(None)
        }
    }
}

/// The number of the identifier that a text is, where it is a hyphenated one, in either case of its digits
/// (RFC 9562). It takes no memory.
pub fn identifier_named(text: &str) -> Option<u128>
    ensures { result ≡ identifier_named text.now }
{
    if text.len() != 36 {
        return None;
    }
    match Uuid::parse_str(text) {
        Ok(id) => Some(id.as_u128()),
        Err(_) => None,
    }
}

// Keeps want of memory apart from other faults.
fn refused(fault: PathFault) -> Result<(), AllocError>
    ensures { OnOk result (fault ≢ PathFault.Memory) }
{
    match fault {
        PathFault::Memory => Err(AllocError),
        _ => Ok(()),
    }
}

// The truth value that a text names.
fn boolean_named(text: &str) -> Option<bool>
    ensures { result ≡ boolean_named text.now }
{
    if text == "true" {
        return Some(true);
    }
    if text == "false" {
        return Some(false);
    }
    None
}

fn string_value(alloc: Global, text: &str) -> Result<Option<Value>, AllocError>
    ensures { IfOk result (IsFound (IsText Kind.Str text.now)) }
{
    Ok(Some(Value::Str(Text::copy_of(alloc, text)?)))
}

fn uri_value(alloc: Global, text: &str) -> Result<Option<Value>, AllocError>
    ensures { IfOk result (IsFound (IsText Kind.Uri text.now)) }
{
    Ok(Some(Value::Uri(Text::copy_of(alloc, text)?)))
}

fn binary_value(alloc: Global, text: &str) -> Result<Option<Value>, AllocError>
    ensures { IfOk result (IsFound (IsText Kind.Binary text.now)) }
{
    match STANDARD.decode(alloc, text.as_bytes()) {
        Ok(bytes) => Ok(Some(Value::Binary(List::of(bytes)))),
        Err(DecodeAllocError::OutOfMemory) => Err(AllocError),
        Err(DecodeAllocError::DecodeError(_)) => Ok(None),
    }
}

fn name_value(alloc: Global, text: &str) -> Result<Option<Value>, AllocError>
    ensures { IfOk result (IsFound (IsText Kind.Name text.now)) }
{
    match name_of(alloc, text)? {
        Some(name) => Ok(Some(Value::Name(name))),
        None => Ok(None),
    }
}

fn path_value(alloc: Global, text: &str) -> Result<Option<Value>, AllocError>
    ensures { IfOk result (IsFound (IsText Kind.Path text.now)) }
{
    match path_of(alloc, text)? {
        Some(path) => Ok(Some(Value::Path(path))),
        None => Ok(None),
    }
}
