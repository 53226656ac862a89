// What the first pieces are.
ghost use Rattle.std.specs.Prelude.{◌≡◌, IfOk};
ghost use Rattle.std.specs.Option.{option_copied};
ghost use Rattle.sql_pieces.specs.Firsts.{is_selector, cast_kind_first, cast_kind_in, literal_first, literal_in, path_first};
ghost use Rattle.sql_pieces.specs.Firsts.{said_path, selector_first, cast_text_first, truth_in};
ghost use Rattle.sql_pieces.specs.Reading.{behind, call_first, says_sign, is_word, next_name, said_name, is_same_sign};
ghost use Rattle.sql_pieces.specs.Reading.{next_sign, word_first};

use crate::leaves::{is_a, kind_named};
use crate::piece::{Placed, Says, Sign};
use jr_path::{DeepCopy, Name, Path, Text};
use jr_value::{Kind, Value};
use std::alloc::AllocError;

/// All pieces but the first.
pub fn behind(pieces: &[Placed]) -> &[Placed]
    ensures { result.now ≡ behind pieces.now }
{
    match pieces {
        [_, rest @ ..] => rest,
        [] => pieces,
    }
}

fn same_sign(a: Sign, b: Sign) -> bool
    ensures { result ≡ is_same_sign a b }
{
    a == b
}

fn is_sign(wanted: Sign, says: &Says) -> bool
    ensures { result ≡ says_sign wanted says.now }
{
    match says {
        Says::Sign(sign) => same_sign(*sign, wanted),
        _ => false,
    }
}

/// Whether the first piece is this sign.
pub fn sign_first(wanted: Sign, pieces: &[Placed]) -> bool
    ensures { result ≡ next_sign wanted pieces.now }
{
    match pieces {
        [piece, ..] => is_sign(wanted, &piece.says),
        [] => false,
    }
}

fn is_word(wanted: &str, says: &Says) -> bool
    ensures { result ≡ is_word wanted.now says.now }
{
    match says {
        Says::Word(name) => is_a(wanted, name.as_str().as_bytes()),
        _ => false,
    }
}

/// Whether the first piece is this word, in any case.
pub fn word_first(wanted: &str, pieces: &[Placed]) -> bool
    ensures { result ≡ word_first wanted.now pieces.now }
{
    match pieces {
        [piece, ..] => is_word(wanted, &piece.says),
        [] => false,
    }
}

/// Whether the first pieces are this word and `(`.
pub fn call_first(wanted: &str, pieces: &[Placed]) -> bool
    ensures { result ≡ call_first wanted.now pieces.now }
{
    word_first(wanted, pieces) && sign_first(Sign::Open, behind(pieces))
}

fn name_in(says: &Says) -> Option<&Name>
    ensures { option_copied result ≡ said_name says.now }
{
    match says {
        Says::Word(name) => Some(name),
        Says::Bracketed(name) => Some(name),
        _ => None,
    }
}

/// The name that comes first.
pub fn name_first(pieces: &[Placed]) -> Option<&Name>
    ensures { option_copied result ≡ next_name pieces.now }
{
    match pieces {
        [piece, ..] => name_in(&piece.says),
        [] => None,
    }
}

fn truth_in(name: &str) -> Option<Value>
    ensures { result ≡ truth_in name.now }
{
    if is_a("TRUE", name.as_bytes()) {
        return Some(Value::Boolean(true));
    }
    if is_a("FALSE", name.as_bytes()) {
        return Some(Value::Boolean(false));
    }
    None
}

fn literal_in(says: &Says) -> Result<Option<Value>, AllocError>
    ensures { IfOk result (λ value. value ≡ literal_in says.now) }
{
    match says {
        Says::Text(text, _, _) => Ok(Some(Value::Str(text.copy()?))),
        Says::Number(number) => Ok(Some(Value::Long(*number))),
        Says::Variable(value) => Ok(Some(value.copy()?)),
        Says::Word(name) => Ok(truth_in(name.as_str())),
        _ => Ok(None),
    }
}

/// The value that comes first, but for a CAST.
pub fn literal_first(pieces: &[Placed]) -> Result<Option<Value>, AllocError>
    ensures { IfOk result (λ value. value ≡ literal_first pieces.now) }
{
    match pieces {
        [piece, ..] => Ok(literal_in(&piece.says)?),
        [] => Ok(None),
    }
}

/// The text that comes first, with its value in a CAST.
pub fn text_first(pieces: &[Placed]) -> Result<Option<(Text, Option<Value>)>, AllocError>
    ensures { IfOk result (λ text. text ≡ cast_text_first pieces.now) }
{
    match pieces {
        [
            Placed {
                says: Says::Text(text, _, value),
                ..
            },
            ..
        ] => Ok(Some((text.copy()?, value.copy()?))),
        _ => Ok(None),
    }
}

fn kind_in(says: &Says) -> Option<Kind>
    ensures { result ≡ cast_kind_in says.now }
{
    match says {
        Says::Word(name) => kind_named(name.as_str().as_bytes()),
        _ => None,
    }
}

/// The kind whose word comes first.
pub fn kind_first(pieces: &[Placed]) -> Option<Kind>
    ensures { result ≡ cast_kind_first pieces.now }
{
    match pieces {
        [piece, ..] => kind_in(&piece.says),
        [] => None,
    }
}

fn path_in(says: &Says) -> Result<Option<Path>, AllocError>
    ensures { IfOk result (λ path. path ≡ said_path says.now) }
{
    match says {
        Says::Path(path) => Ok(Some(path.copy()?)),
        Says::Text(_, path, _) => Ok(path.copy()?),
        _ => Ok(None),
    }
}

/// The path that comes first.
pub fn path_first(pieces: &[Placed]) -> Result<Option<Path>, AllocError>
    ensures { IfOk result (λ path. path ≡ path_first pieces.now) }
{
    match pieces {
        [piece, ..] => Ok(path_in(&piece.says)?),
        [] => Ok(None),
    }
}

fn is_selector(says: &Says) -> bool
    ensures { result ≡ is_selector says.now }
{
    match says {
        Says::Word(_) => true,
        Says::Bracketed(_) => true,
        _ => false,
    }
}

/// Whether a name comes first.
pub fn selector_first(pieces: &[Placed]) -> bool
    ensures { result ≡ selector_first pieces.now }
{
    match pieces {
        [piece, ..] => is_selector(&piece.says),
        [] => false,
    }
}
