// Names of selectors and properties.
ghost use Rattle.std.specs.Prelude.{◌≡◌};
ghost use Rattle.sql_select.specs.Selected.{declared_at, is_one, only_at, read_property, selector_property};
ghost use Rattle.sql_pieces.specs.Leaves.{place_named};
ghost use Rattle.sql_pieces.specs.Reading.{Gives, Reads, required};

use crate::cursor::Cursor;
use jr_path::{DeepCopy, Name};
use sql_pieces::{Sign, SqlFault, name_first, place_named};
use sql_query::PropertyOf;

// Whether there is one selector alone.
fn is_one(names: &[Name]) -> bool
    ensures { result ≡ is_one names.now }
{
    match names {
        [_] => true,
        _ => false,
    }
}

// The place of a selector's name; where it isn't declared, the fault is at the offset.
fn place_or(names: &[Name], name: &Name, at: usize) -> Result<u32, SqlFault>
    ensures { Gives result (required (place_named names.now name.now) at) }
{
    match place_named(names, name) {
        Some(place) => Ok(place),
        None => Err(SqlFault::InvalidQuery(at)),
    }
}

/// The place of the one selector; where there are several, the fault is at the offset.
pub fn only_or(names: &[Name], at: usize) -> Result<u32, SqlFault>
    ensures { Gives result (only_at names.now at) }
{
    if is_one(names) {
        Ok(0)
    } else {
        Err(SqlFault::InvalidQuery(at))
    }
}

impl<'a> Cursor<'a> {
    /// Reads the name of a selector that is declared.
    pub fn declared(&mut self, names: &[Name]) -> Result<u32, SqlFault>
        ensures { Reads result self.new (declared_at names.now self.old) }
    {
        let at = self.place();
        let Some(name) = name_first(self.pieces) else {
            return Err(self.fault());
        };
        self.advance();
        place_or(names, name, at)
    }

    // . name, behind the name of a selector, of which is asked once the property is read
    fn property_of(
        &mut self,
        names: &[Name],
        at: usize,
        first: &Name,
    ) -> Result<PropertyOf, SqlFault>
        ensures { Reads result self.new (selector_property names.now at first.now self.old) }
    {
        self.advance();
        let Some(name) = name_first(self.pieces) else {
            return Err(self.fault());
        };
        let selector = place_or(names, first, at)?;
        let name = name.copy()?;
        self.advance();
        Ok(PropertyOf { selector, name })
    }

    /// property = [name .] name
    pub fn property(&mut self, names: &[Name]) -> Result<PropertyOf, SqlFault>
        ensures { Reads result self.new (read_property names.now self.old) }
    {
        let at = self.place();
        let Some(first) = name_first(self.pieces) else {
            return Err(self.fault());
        };
        self.advance();
        if self.is_sign(Sign::Dot) {
            return self.property_of(names, at, first);
        }
        let selector = only_or(names, at)?;
        let name = first.copy()?;
        Ok(PropertyOf { selector, name })
    }
}
