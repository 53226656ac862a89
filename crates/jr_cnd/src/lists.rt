// Lists of names, of texts and of values, one behind another with commas between.
ghost use Rattle.std.specs.Prelude.{◌≡◌};
ghost use Rattle.std.specs.Option.{option_copied};
ghost use Rattle.jr_cnd.specs.Grammar.{first_name, first_text, first_value, name_more, names_at, text_more, texts_at, value_at, value_first, value_in, value_more, values_at};
ghost use Rattle.jr_cnd.specs.Reading.{Reads};

use crate::NoCnd;
use crate::cursor::Cursor;
use cnd_pieces::{Placed, Says, Sign};
use jr_path::{DeepCopy, List, Name, Text};
use jr_value::Value;

fn value_in(says: &Says) -> Option<&Value>
    ensures { option_copied result ≡ value_in says.now }
{
    match says {
        Says::Quoted(_, _, value) => value.as_ref(),
        _ => None,
    }
}

fn value_first(pieces: &[Placed]) -> Option<&Value>
    ensures { option_copied result ≡ value_first pieces.now }
{
    match pieces {
        [piece, ..] => value_in(&piece.says),
        [] => None,
    }
}

impl<'a> Cursor<'a> {
    // A further name, behind its comma.
    fn name_more(&mut self, names: List<Name>) -> Result<List<Name>, NoCnd>
        ensures { Reads result self.new (name_more names self.old) }
    {
        self.advance();
        let name = self.name()?;
        let mut names = names;
        names.push(name)?;
        Ok(names)
    }

    fn first_name(&mut self) -> Result<List<Name>, NoCnd>
        ensures { Reads result self.new (first_name self.old) }
    {
        let name = self.name()?;
        let mut names = List::new(self.alloc);
        names.push(name)?;
        Ok(names)
    }

    // name {, name}
    pub(crate) fn names(&mut self) -> Result<List<Name>, NoCnd>
        ensures { Reads result self.new (names_at self.old) }
    {
        let mut names = self.first_name()?;
        let mut turns = self.pieces;
        while let [_, more @ ..] = turns {
            if !self.is_sign(Sign::Comma) {
                break;
            }
            turns = more;
            names = self.name_more(names)?;
        }
        Ok(names)
    }

    // A further text, behind its comma.
    fn text_more(&mut self, texts: List<Text>) -> Result<List<Text>, NoCnd>
        ensures { Reads result self.new (text_more texts self.old) }
    {
        self.advance();
        let text = self.text()?;
        let mut texts = texts;
        texts.push(text)?;
        Ok(texts)
    }

    fn first_text(&mut self) -> Result<List<Text>, NoCnd>
        ensures { Reads result self.new (first_text self.old) }
    {
        let text = self.text()?;
        let mut texts = List::new(self.alloc);
        texts.push(text)?;
        Ok(texts)
    }

    // text {, text}
    pub(crate) fn texts(&mut self) -> Result<List<Text>, NoCnd>
        ensures { Reads result self.new (texts_at self.old) }
    {
        let mut texts = self.first_text()?;
        let mut turns = self.pieces;
        while let [_, more @ ..] = turns {
            if !self.is_sign(Sign::Comma) {
                break;
            }
            turns = more;
            texts = self.text_more(texts)?;
        }
        Ok(texts)
    }

    // Reads a default.
    fn value(&mut self) -> Result<Value, NoCnd>
        ensures { Reads result self.new (value_at self.old) }
    {
        match value_first(self.pieces) {
            Some(value) => {
                let value = value.copy()?;
                self.advance();
                Ok(value)
            }
            None => Err(self.fault()),
        }
    }

    // A further default, behind its comma.
    fn value_more(&mut self, values: List<Value>) -> Result<List<Value>, NoCnd>
        ensures { Reads result self.new (value_more values self.old) }
    {
        self.advance();
        let value = self.value()?;
        let mut values = values;
        values.push(value)?;
        Ok(values)
    }

    fn first_value(&mut self) -> Result<List<Value>, NoCnd>
        ensures { Reads result self.new (first_value self.old) }
    {
        let value = self.value()?;
        let mut values = List::new(self.alloc);
        values.push(value)?;
        Ok(values)
    }

    // The defaults of a property, behind `=`.
    pub(crate) fn values(&mut self) -> Result<List<Value>, NoCnd>
        ensures { Reads result self.new (values_at self.old) }
    {
        let mut values = self.first_value()?;
        let mut turns = self.pieces;
        while let [_, more @ ..] = turns {
            if !self.is_sign(Sign::Comma) {
                break;
            }
            turns = more;
            values = self.value_more(values)?;
        }
        Ok(values)
    }
}
