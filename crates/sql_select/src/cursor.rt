// A place in the pieces of a query, and the reading of one piece.
ghost use Rattle.std.specs.Prelude.{◌≡◌, Err, IfErr, IfOk, Ok, OnOk};
ghost use Rattle.sql_pieces.specs.Reading.{Reads, ReadsAs, after, call_first, read_name, paired, offset_at, read_sign, next_sign, word_at, word_first};

use jr_path::{DeepCopy, Name};
use jr_value::Kind;
use sql_pieces::{Placed, Sign, SqlFault, behind, call_first, name_first, sign_first, word_first};
use std::marker::Model;

/// What is left of a query, and what was noted so far.
#[derive(Drop)]
pub struct Cursor<'a> {
    /// The tokens that are left.
    pub pieces: &'a [Placed],
    /// The offset behind the last token.
    pub stop: usize,
    /// The kind of the first CAST so far whose text has no value of that kind.
    pub refused: Option<Kind>,
}

impl<'a> Model for Cursor<'a> {
    ghost use Rattle.sql_pieces.specs.Reading.{State};

    ghost Value = { State };

    ghost view = { λ c. record { pieces = c.pieces.now; stop = c.stop; refused = c.refused } };
}

/// A value, and what a result has beside it.
pub fn both<A: Drop, B>(value: A, outcome: Result<B, SqlFault>) -> Result<(A, B), SqlFault>
    ensures { result ≡ paired value outcome }
{
    match outcome {
        Ok(other) => Ok((value, other)),
        Err(fault) => Err(fault),
    }
}

// A value, once what comes behind it is read.
pub(crate) fn kept<A: Drop>(value: A, outcome: Result<(), SqlFault>) -> Result<A, SqlFault>
    ensures same { IfOk result (λ kept. kept ≡ value) }
    ensures ok { OnOk result (outcome ≡ Ok tt) }
    ensures err { IfErr result (λ fault. outcome ≡ Err fault) }
{
    match outcome {
        Ok(()) => Ok(value),
        Err(fault) => Err(fault),
    }
}

impl<'a> Cursor<'a> {
    /// The offset of what comes next.
    pub fn place(&self) -> usize
        ensures { result ≡ offset_at self.now }
    {
        match self.pieces {
            [piece, ..] => piece.start,
            [] => self.stop,
        }
    }

    /// What comes next can't stand there.
    pub fn fault(&self) -> SqlFault
        ensures { result ≡ SqlFault.InvalidQuery (offset_at self.now) }
    {
        SqlFault::InvalidQuery(self.place())
    }

    /// Goes on behind the next piece.
    pub fn advance(&mut self)
        ensures { self.new ≡ after self.old }
    {
        self.pieces = behind(self.pieces);
    }

    /// Whether the sign comes next.
    pub fn is_sign(&self, wanted: Sign) -> bool
        ensures { result ≡ next_sign wanted self.now.pieces }
    {
        sign_first(wanted, self.pieces)
    }

    /// Whether the word comes next, in any case.
    pub fn is_word(&self, wanted: &str) -> bool
        ensures { result ≡ word_first wanted.now self.now.pieces }
    {
        word_first(wanted, self.pieces)
    }

    /// Whether the word comes next, and `(` behind it.
    pub fn is_call(&self, wanted: &str) -> bool
        ensures { result ≡ call_first wanted.now self.now.pieces }
    {
        call_first(wanted, self.pieces)
    }

    /// Reads a sign.
    pub fn sign(&mut self, wanted: Sign) -> Result<(), SqlFault>
        ensures { Reads result self.new (read_sign wanted self.old) }
    {
        if !self.is_sign(wanted) {
            return Err(self.fault());
        }
        self.advance();
        Ok(())
    }

    /// Reads `(` behind a function's word.
    pub fn open(&mut self) -> Result<(), SqlFault>
        ensures { Reads result self.new (read_sign Sign.Open (after self.old)) }
    {
        self.advance();
        self.sign(Sign::Open)
    }

    /// Reads `)` behind a value, and gives the value back.
    pub fn closed<A: Drop>(&mut self, value: A) -> Result<A, SqlFault>
        ensures same { IfOk result (λ closed. closed ≡ value) }
        ensures read { ReadsAs (λ _. tt) result self.new (read_sign Sign.Close self.old) }
    {
        let close = self.sign(Sign::Close);
        kept(value, close)
    }

    /// Reads a keyword.
    pub fn word(&mut self, wanted: &str) -> Result<(), SqlFault>
        ensures { Reads result self.new (word_at wanted.now self.old) }
    {
        if !self.is_word(wanted) {
            return Err(self.fault());
        }
        self.advance();
        Ok(())
    }

    /// Reads a name.
    pub fn name(&mut self) -> Result<Name, SqlFault>
        ensures { Reads result self.new (read_name self.old) }
    {
        match name_first(self.pieces) {
            Some(name) => {
                let name = name.copy()?;
                self.advance();
                Ok(name)
            }
            None => Err(self.fault()),
        }
    }
}
