// A place in the pieces of a text, and the reading of one piece.
ghost use Rattle.std.specs.Prelude.{◌≡◌, IsSome, is_some};
ghost use Rattle.std.specs.Option.{option_copied, option_map};
ghost use Rattle.jr_cnd.specs.Reading.{Reads, after, bare_first, bare_in, behind, is_sign, name_at, name_first, cnd_name_in, no_pieces, place, same_sign, sign_at, sign_first, text_at, text_first, text_in};

use crate::NoCnd;
use cnd_pieces::{Placed, Says, Sign};
use jr_path::{DeepCopy, Name, Text};
use std::alloc::Global;
use std::marker::Model;

// What is left of a text.
#[derive(Drop)]
pub(crate) struct Cursor<'a> {
    pub(crate) alloc: Global,
    pub(crate) pieces: &'a [Placed],
    pub(crate) stop: usize,
}

impl<'a> Model for Cursor<'a> {
    ghost use Rattle.jr_cnd.specs.Reading.{State};

    ghost Value = { State };

    ghost view = { λ c. record { pieces = c.pieces.now; stop = c.stop } };
}

// All pieces but the first.
fn behind(pieces: &[Placed]) -> &[Placed]
    ensures { result.now ≡ behind pieces.now }
{
    match pieces {
        [_, rest @ ..] => rest,
        [] => pieces,
    }
}

fn same_sign(a: Sign, b: Sign) -> bool
    ensures { result ≡ same_sign a b }
{
    a == b
}

fn is_sign(wanted: Sign, says: &Says) -> bool
    ensures { result ≡ is_sign wanted says.now }
{
    match says {
        Says::Sign(sign) => same_sign(*sign, wanted),
        _ => false,
    }
}

// Whether the first piece is this sign.
fn sign_first(wanted: Sign, pieces: &[Placed]) -> bool
    ensures { result ≡ sign_first wanted pieces.now }
{
    match pieces {
        [piece, ..] => is_sign(wanted, &piece.says),
        [] => false,
    }
}

fn name_in(says: &Says) -> Option<&Name>
    ensures { option_copied result ≡ cnd_name_in says.now }
{
    match says {
        Says::Name(name) => Some(name),
        Says::Quoted(_, name, _) => name.as_ref(),
        _ => None,
    }
}

fn name_first(pieces: &[Placed]) -> Option<&Name>
    ensures { option_copied result ≡ name_first pieces.now }
{
    match pieces {
        [piece, ..] => name_in(&piece.says),
        [] => None,
    }
}

fn text_in(says: &Says) -> Option<&Text>
    ensures { option_copied result ≡ text_in says.now }
{
    match says {
        Says::Quoted(text, _, _) => Some(text),
        _ => None,
    }
}

fn text_first(pieces: &[Placed]) -> Option<&Text>
    ensures { option_copied result ≡ text_first pieces.now }
{
    match pieces {
        [piece, ..] => text_in(&piece.says),
        [] => None,
    }
}

fn bare_in(says: &Says) -> Option<&str>
    ensures { option_map (λ t. t.now) result ≡ bare_in says.now }
{
    match says {
        Says::Name(name) => Some(name.as_str()),
        Says::Bare(text) => Some(text.as_str()),
        _ => None,
    }
}

pub(crate) fn bare_first(pieces: &[Placed]) -> Option<&str>
    ensures { option_map (λ t. t.now) result ≡ bare_first pieces.now }
{
    match pieces {
        [piece, ..] => bare_in(&piece.says),
        [] => None,
    }
}

impl<'a> Cursor<'a> {
    // The offset of what comes next.
    pub(crate) fn place(&self) -> usize
        ensures { result ≡ place self.now }
    {
        match self.pieces {
            [piece, ..] => piece.start,
            [] => self.stop,
        }
    }

    // What comes next can't stand there.
    pub(crate) fn fault(&self) -> NoCnd
        ensures { result ≡ NoCnd.Syntax (place self.now) }
    {
        NoCnd::Syntax(self.place())
    }

    // Goes on behind the next piece.
    pub(crate) fn advance(&mut self)
        ensures { self.new ≡ after self.old }
    {
        self.pieces = behind(self.pieces);
    }

    // Nothing is left.
    pub(crate) fn is_over(&self) -> bool
        ensures { result ≡ no_pieces self.now.pieces }
    {
        self.pieces.is_empty()
    }

    // Whether the sign comes next.
    pub(crate) fn is_sign(&self, wanted: Sign) -> bool
        ensures { result ≡ sign_first wanted self.now.pieces }
    {
        sign_first(wanted, self.pieces)
    }

    // Whether a bare token stands behind what comes next.
    pub(crate) fn is_bare_behind(&self) -> bool
        ensures { result ≡ is_some (bare_first (behind self.now.pieces)) }
    {
        bare_first(behind(self.pieces)).is_some()
    }

    // Reads a sign.
    pub(crate) fn sign(&mut self, wanted: Sign) -> Result<(), NoCnd>
        ensures { Reads result self.new (sign_at wanted self.old) }
    {
        if !self.is_sign(wanted) {
            return Err(self.fault());
        }
        self.advance();
        Ok(())
    }

    // Reads a name.
    pub(crate) fn name(&mut self) -> Result<Name, NoCnd>
        ensures { Reads result self.new (name_at self.old) }
    {
        match name_first(self.pieces) {
            Some(name) => {
                let name = name.copy()?;
                self.advance();
                Ok(name)
            }
            None => Err(self.fault()),
        }
    }

    // Reads a text.
    pub(crate) fn text(&mut self) -> Result<Text, NoCnd>
        ensures { Reads result self.new (text_at self.old) }
    {
        match text_first(self.pieces) {
            Some(text) => {
                let text = text.copy()?;
                self.advance();
                Ok(text)
            }
            None => Err(self.fault()),
        }
    }
}
