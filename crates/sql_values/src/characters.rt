// Texts as characters, the sizes of values, and texts with their letters in one case.
ghost use Rattle.std.specs.Prelude.{◌≡◌, ◌≤◌, ℕ, List as Seq, pos, IfOk, length, map, string_bytes};
ghost use Rattle.std.specs.Char.{to_ascii_lowercase, to_ascii_uppercase};
ghost use Rattle.std.specs.Str.{chars};
ghost use Rattle.jr_value.specs.declared.value.Value.TheVariants as value;
ghost use Rattle.sql_values.specs.Texts.{size_of, long_of, lengths_of, cased, in_case, local_part, with_characters};

use jr_path::{DeepCopy, List, Name, Path, Text};
use jr_value::{Kind, Property, Value, identifier_text};
use std::alloc::{AllocError, Global};

/// The characters of a text.
pub(crate) fn characters(alloc: Global, text: &str) -> Result<Vec<char>, AllocError>
    ensures { IfOk result (λ all. all.items ≡ chars text.now) }
{
    text.chars().collect(alloc)
}

// How many characters a text has.
fn count(text: &str) -> i64
    ensures { result ≡ pos (length (chars text.now)) }
{
    let count = characters_in(text);
    count as i64
}

fn characters_in(text: &str) -> usize
    ensures count { result ≡ length (chars text.now) }
    ensures bound { result ≤ length text.now }
{
    text.chars().count()
}

// The bytes of a BINARY, and the characters of every other value's text.
fn size_of(alloc: Global, value: &Value) -> Result<i64, AllocError>
    ensures { IfOk result (λ size. size ≡ pos (size_of value.now)) }
{
    match value {
        Value::Str(text) => Ok(count(text.as_str())),
        Value::Binary(bytes) => Ok(bytes.inner().len() as i64),
        Value::Long(number) => count_number(alloc, *number),
        Value::Date(time) => count_number(alloc, *time),
        Value::Boolean(truth) => Ok(count(if *truth { "true" } else { "false" })),
        Value::Name(name) => Ok(count(name.as_str())),
        Value::Path(path) => count_in(path.text()),
        Value::Reference(id) => count_in(identifier_text(alloc, *id)),
        Value::WeakReference(id) => count_in(identifier_text(alloc, *id)),
        Value::Uri(text) => Ok(count(text.as_str())),
    }
}

// How many characters a number has as it is printed.
fn count_number(alloc: Global, number: i64) -> Result<i64, AllocError>
    ensures { IfOk result (λ size. size ≡ pos (size_of (value.Long number))) }
{
    count_in(format!(in alloc; "{number}"))
}

// How many characters a text has that was made.
fn count_in(text: Result<String, AllocError>) -> Result<i64, AllocError>
    ensures { (bytes : Seq ℕ) → IfOk text (λ made. string_bytes made ≡ bytes) → IfOk result (λ size. size ≡ pos (length (chars bytes))) }
{
    Ok(count(text?.as_str()))
}

/// The size of each value of a property, as a LONG (JSR 283, 6.7.27 Length).
pub fn lengths_of(alloc: Global, property: &Property) -> Result<Property, AllocError>
    ensures { IfOk result (λ lengths. lengths ≡ lengths_of property.now) }
{
    match property {
        Property::Single(value) => Ok(Property::Single(Value::Long(size_of(alloc, value)?))),
        Property::Many(_, values) => Ok(Property::Many(
            Kind::Long,
            List::of(sizes_of(alloc, values.as_slice())?),
        )),
    }
}

fn sizes_of(alloc: Global, values: &[Value]) -> Result<Vec<Value>, AllocError>
    ensures { IfOk result (λ sizes. sizes.items ≡ map (λ x. long_of (size_of x)) values.now) }
{
    let mut sizes = Vec::new(alloc);
    let mut left = values;
    while let [value, rest @ ..] = left {
        left = rest;
        sizes.push(Value::Long(size_of(alloc, value)?))?;
    }
    Ok(sizes)
}

/// The case of letters.
#[derive(Clone, Copy)]
pub enum Case {
    Lower,
    Upper,
}

/// Each text of a property with the letters of ASCII in one case (JSR 283, 6.7.32 LowerCase and 6.7.33 UpperCase).
/// Only a STRING, NAME, PATH or URI changes, and none changes its kind.
pub fn in_case(alloc: Global, case: Case, property: &Property) -> Result<Property, AllocError>
    ensures { IfOk result (λ changed. changed ≡ in_case (cased case) property.now) }
{
    match property {
        Property::Single(value) => Ok(Property::Single(with_case(alloc, case, value)?)),
        Property::Many(kind, values) => Ok(Property::Many(
            *kind,
            List::of(all_with_case(alloc, case, values.as_slice())?),
        )),
    }
}

fn all_with_case(alloc: Global, case: Case, values: &[Value]) -> Result<Vec<Value>, AllocError>
    ensures { IfOk result (λ all. all.items ≡ map (with_characters (cased case)) values.now) }
{
    let mut all = Vec::new(alloc);
    let mut left = values;
    while let [value, rest @ ..] = left {
        left = rest;
        all.push(with_case(alloc, case, value)?)?;
    }
    Ok(all)
}

fn with_case(alloc: Global, case: Case, value: &Value) -> Result<Value, AllocError>
    ensures { IfOk result (λ changed. changed ≡ with_characters (cased case) value.now) }
{
    match value {
        Value::Str(text) => text_with_case(alloc, case, text.as_str()).map(Value::Str),
        Value::Name(name) => name_with_case(alloc, case, name).map(Value::Name),
        Value::Path(path) => path_with_case(alloc, case, path).map(Value::Path),
        Value::Uri(text) => text_with_case(alloc, case, text.as_str()).map(Value::Uri),
        other => other.copy(),
    }
}

fn text_with_case(alloc: Global, case: Case, text: &str) -> Result<Text, AllocError>
    ensures { IfOk result (λ changed. changed ≡ map (cased case) text.now) }
{
    match case {
        Case::Lower => text.to_ascii_lowercase(alloc).map(Text::of),
        Case::Upper => text.to_ascii_uppercase(alloc).map(Text::of),
    }
}

// A name stays in the grammar of names.
#[tactic(auto, using(crate::proofs::Cased::cased_name))]
fn name_with_case(alloc: Global, case: Case, name: &Name) -> Result<Name, AllocError>
    ensures { IfOk result (λ changed. changed ≡ map (cased case) name.now) }
{
    name.in_grammar();
    let text = text_with_case(alloc, case, name.as_str())?;
    Name::of(alloc, text.as_str())
}

fn path_with_case(alloc: Global, case: Case, path: &Path) -> Result<Path, AllocError>
    ensures { IfOk result (λ changed. changed ≡ map (map (cased case)) path.now) }
{
    let mut changed = Path::root(alloc);
    let mut left = path.names();
    while let [name, rest @ ..] = left {
        left = rest;
        changed = changed.child(&name_with_case(alloc, case, name)?)?;
    }
    Ok(changed)
}

/// The part of a name behind its colon, or the name where it has none (JSR 283, 6.7.31 NodeLocalName).
pub fn local_part(name: &str) -> &str
    ensures { result.now ≡ local_part name.now }
{
    match name.split_once(':') {
        Some((_, local)) => local,
        None => name,
    }
}
