// Which values meet a constraint, and which constraints a definition may have.
ghost use Rattle.std.specs.Prelude.{◌≡◌, ◌==◌, ◌∷◌, ◌++◌, ℕ, List as Seq, MatchOption, codes, false, length, pos};
ghost use Rattle.std.specs.List.{list_any};
ghost use Rattle.jr_path.specs.Ids.{joined, path_text};
ghost use Rattle.jr_value.specs.Values.{same_bytes};
ghost use Rattle.jr_constraint.specs.Constraints.{is_constraint, is_literal, meets};

use crate::ranges::{range_in, ranges_over};
use jr_path::{List, Name, Text};
use jr_value::{Kind, Value};

/// Whether the value meets one of the constraints (JSR 283, 3.7.3.6 Value Constraints).
pub fn meets_one(value: &Value, constraints: &[Text]) -> bool
    ensures { result ≡ list_any (meets value.now) constraints.now }
{
    constraints
        .iter()
        .any(|constraint| meets(value, constraint.as_str()))
}

// Whether a value meets a constraint: a range for numbers and for a binary's length, the printed
// text for others, and none for references.
fn meets(value: &Value, constraint: &str) -> bool
    ensures { result ≡ meets value.now constraint.now }
{
    match value {
        Value::Long(number) => ranges_over(constraint, *number),
        Value::Date(time) => ranges_over(constraint, *time),
        Value::Binary(bytes) => ranges_over(constraint, length_of(bytes)),
        Value::Str(text) => is_text(text.as_str(), constraint),
        Value::Boolean(truth) => is_text(if *truth { "true" } else { "false" }, constraint),
        Value::Name(name) => is_text(name.as_str(), constraint),
        Value::Path(path) => is_path_text(path.names(), constraint.as_bytes()),
        Value::Uri(text) => is_text(text.as_str(), constraint),
        Value::Reference(_) => false,
        Value::WeakReference(_) => false,
    }
}

fn length_of(bytes: &List<u8>) -> i64
    ensures { result ≡ pos (length bytes.now) }
{
    bytes.inner().len() as i64
}

fn is_text(text: &str, constraint: &str) -> bool
    ensures { result ≡ same_bytes text.now constraint.now }
{
    text.cmp(constraint).is_eq()
}

// Whether the names are those of the path that the text writes.
fn is_path_text(names: &[Name], text: &[u8]) -> bool
    ensures { result ≡ same_bytes (path_text names.now) text.now }
{
    match names {
        [] => matches!(text, [b'/']),
        _ => is_names_text(names, text),
    }
}

// Whether the text is that of the names, each behind a `/`.
fn is_names_text(names: &[Name], text: &[u8]) -> bool
    ensures { result ≡ same_bytes (joined names.now) text.now }
{
    let mut rest = text;
    for name in names {
        match behind(name.as_str(), rest) {
            Some(more) => rest = more,
            None => return false,
        }
    }
    rest.is_empty()
}

// What stands in a text behind a `/` and a name, where it begins with them: with any text behind them it is
// the same exactly where that is this one.
fn behind<'a>(name: &str, text: &'a [u8]) -> Option<&'a [u8]>
    ensures { MatchOption result
        ((more : Seq ℕ) → same_bytes (47 ∷ (name.now ++ more)) text.now ≡ false)
        (λ rest. (more : Seq ℕ) → same_bytes (47 ∷ (name.now ++ more)) text.now ≡ same_bytes more rest.now) }
{
    match text {
        [b'/', rest @ ..] => rest.strip_prefix(name.as_bytes()),
        _ => None,
    }
}

/// Whether a definition of that kind may have the constraint; one of no kind may have any.
pub fn is_constraint(kind: Option<Kind>, constraint: &str) -> bool
    ensures { result ≡ is_constraint kind constraint.now }
{
    match kind {
        Some(Kind::Long | Kind::Date | Kind::Binary) => range_in(constraint).is_some(),
        Some(Kind::Str) => is_plain(constraint),
        Some(Kind::Reference | Kind::WeakReference) => false,
        _ => true,
    }
}

// Whether a literal text has none of `. * + ? [ ] ( ) { } | ^ $ \`.
fn is_plain(text: &str) -> bool
    ensures { result ≡ is_literal text.now }
{
    text.as_bytes().iter().all(|byte| !is_special(*byte))
}

fn is_special(byte: u8) -> bool
    ensures { result ≡ list_any (λ special. special == byte) (codes ".*+?[](){}|^$\\") }
{
    b".*+?[](){}|^$\\".contains(&byte)
}
