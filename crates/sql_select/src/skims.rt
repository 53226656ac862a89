// The selectors of a query as far as the grammar reads them, whatever the names in ON mean.
ghost use Rattle.std.specs.Prelude.{◌≡◌};
ghost use Rattle.sql_select.specs.Selected.{first_selector, names_more, pair_first, skim_condition, skim_equal, skim_join, skim_on, skim_pair, skim_property, skim_selector, skim_sources};
ghost use Rattle.sql_pieces.specs.Reading.{Reads};

use crate::cursor::{Cursor, kept};
use jr_path::{List, Name};
use sql_pieces::{Placed, Sign, SqlFault, call_first};
use std::alloc::Global;

// Whether a function of two selectors comes first.
fn pair_first(pieces: &[Placed]) -> bool
    ensures { result ≡ pair_first pieces.now }
{
    call_first("ISSAMENODE", pieces)
        || call_first("ISCHILDNODE", pieces)
        || call_first("ISDESCENDANTNODE", pieces)
}

impl<'a> Cursor<'a> {
    // Whether a function of two selectors comes next.
    fn is_pair(&self) -> bool
        ensures { result ≡ pair_first self.now.pieces }
    {
        pair_first(self.pieces)
    }

    // property = [name .] name
    fn skim_property(&mut self) -> Result<(), SqlFault>
        ensures { Reads result self.new (skim_property self.old) }
    {
        self.any_name()?;
        if self.is_sign(Sign::Dot) {
            self.advance();
            self.any_name()?;
        }
        Ok(())
    }

    // ( name , name ), behind a function's word
    fn skim_pair(&mut self) -> Result<(), SqlFault>
        ensures { Reads result self.new (skim_pair self.old) }
    {
        self.open()?;
        self.any_name()?;
        self.sign(Sign::Comma)?;
        self.any_name()?;
        self.sign(Sign::Close)
    }

    // property = property
    fn skim_equal(&mut self) -> Result<(), SqlFault>
        ensures { Reads result self.new (skim_equal self.old) }
    {
        self.skim_property()?;
        self.sign(Sign::Equal)?;
        self.skim_property()
    }

    // on = property = property | ISSAMENODE(name, name) | ISCHILDNODE(name, name) | ISDESCENDANTNODE(name, name)
    fn skim_on(&mut self) -> Result<(), SqlFault>
        ensures { Reads result self.new (skim_on self.old) }
    {
        if self.is_pair() {
            return self.skim_pair();
        }
        self.skim_equal()
    }

    // ON on
    fn skim_condition(&mut self) -> Result<(), SqlFault>
        ensures { Reads result self.new (skim_condition self.old) }
    {
        self.word("ON")?;
        self.skim_on()
    }

    // selector = name [AS name], as its name
    fn skim_selector(&mut self) -> Result<Name, SqlFault>
        ensures { Reads result self.new (skim_selector self.old) }
    {
        let selector = self.selector()?;
        Ok(selector.1)
    }

    // join = [INNER | LEFT OUTER | RIGHT OUTER] JOIN selector ON on, as the name of its selector
    fn skim_join(&mut self) -> Result<Name, SqlFault>
        ensures { Reads result self.new (skim_join self.old) }
    {
        self.join_kind()?;
        let name = self.skim_selector()?;
        let condition = self.skim_condition();
        kept(name, condition)
    }

    // The name of a further selector.
    fn names_more(&mut self, names: List<Name>) -> Result<List<Name>, SqlFault>
        ensures { Reads result self.new (names_more names self.old) }
    {
        let name = self.skim_join()?;
        let mut names = names;
        names.push(name)?;
        Ok(names)
    }

    // The names, as far as the first.
    fn first_name(&mut self, alloc: Global) -> Result<List<Name>, SqlFault>
        ensures { Reads result self.new (first_selector self.old) }
    {
        let name = self.skim_selector()?;
        let mut names = List::new(alloc);
        names.push(name)?;
        Ok(names)
    }

    // selector {join}, as the names of the selectors
    pub(crate) fn skim_sources(&mut self, alloc: Global) -> Result<List<Name>, SqlFault>
        ensures { Reads result self.new (skim_sources self.old) }
    {
        let mut names = self.first_name(alloc)?;
        let mut turns = self.pieces;
        while let [_, more @ ..] = turns {
            if !self.is_join() {
                break;
            }
            turns = more;
            names = self.names_more(names)?;
        }
        Ok(names)
    }
}
