// Paths' texts compared byte by byte, without making them.
ghost use Rattle.std.specs.Prelude.{◌≡◌, ◌∷◌, ◌++◌, [], MatchOption};
ghost use Rattle.std.specs.Ordering.{nat_cmp};
ghost use Rattle.std.specs.Cmp.Lexicographic.{slice_cmp};
ghost use Rattle.jr_path.specs.Ids.{joined, path_text};

use crate::{Name, Path};
use std::cmp::Ordering;
use std::marker::Model;

// What is left of a text: bytes, then names, each after a slash.
#[derive(Drop)]
pub(crate) struct Cursor<'a> {
    bytes: &'a [u8],
    names: &'a [Name],
}

impl<'a> Model for Cursor<'a> {
    ghost use Rattle.std.specs.Prelude.{List, ℕ, ◌++◌};
    ghost use Rattle.jr_path.specs.Ids.{joined};

    ghost Value = { List ℕ };

    ghost view = { λ c. c.bytes.now ++ joined c.names.now };
}

impl<'a> Cursor<'a> {
    // The text of names, each after a slash.
    fn new(names: &'a [Name]) -> Cursor<'a>
        ensures { result ≡ joined names.now }
    {
        Cursor { bytes: &[], names }
    }

    // The text of a path.
    pub(crate) fn of(path: &'a Path) -> Cursor<'a>
        ensures { result ≡ path_text path.now }
    {
        let names = path.names();
        match names {
            [] => Cursor { bytes: b"/", names },
            _ => Cursor { bytes: &[], names },
        }
    }

    fn next(&mut self) -> Option<u8>
        ensures { MatchOption result (self.old ≡ []) (λ byte. self.old ≡ byte ∷ self.new) }
    {
        match self.bytes {
            [byte, rest @ ..] => {
                self.bytes = rest;
                Some(*byte)
            }
            [] => match self.names {
                [name, rest @ ..] => {
                    self.bytes = name.as_str().as_bytes();
                    self.names = rest;
                    Some(b'/')
                }
                [] => None,
            },
        }
    }

    // The order of what is left of two texts, by bytes.
    pub(crate) fn cmp(mut self, mut other: Cursor<'a>) -> Ordering
        ensures { result ≡ slice_cmp nat_cmp self.entry other.entry }
    {
        loop {
            match (self.next(), other.next()) {
                (None, None) => return Ordering::Equal,
                (None, Some(_)) => return Ordering::Less,
                (Some(_), None) => return Ordering::Greater,
                (Some(x), Some(y)) => {
                    if x != y {
                        return x.cmp(&y);
                    }
                }
            }
        }
    }
}

// The order of the texts of names, each after a slash, by bytes.
pub(crate) fn text_cmp(a: &[Name], b: &[Name]) -> Ordering
    ensures { result ≡ slice_cmp nat_cmp (joined a.now) (joined b.now) }
{
    Cursor::new(a).cmp(Cursor::new(b))
}
