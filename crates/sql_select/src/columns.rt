// The columns of a query.
ghost use Rattle.std.specs.Prelude.{◌≡◌, IfOk};
ghost use Rattle.sql_select.specs.Selected.{alias_at, column_at, column_more, columns_at, first_column, first_offset, node_columns, nodes_first, skim_column, skim_columns, skim_more};
ghost use Rattle.sql_pieces.specs.Reading.{any_name_at, Reads};

use crate::cursor::Cursor;
use jr_path::{List, Name};
use sql_pieces::{Placed, Sign, SqlFault, behind, name_first, sign_first};
use sql_query::Column;
use std::alloc::{AllocError, Global};

// Whether the first pieces are a name, `.` and `*`, if they begin with a name.
fn nodes_first(pieces: &[Placed]) -> bool
    ensures { result ≡ nodes_first pieces.now }
{
    sign_first(Sign::Dot, behind(pieces)) && sign_first(Sign::Star, behind(behind(pieces)))
}

fn first_of(first: Option<usize>, second: Option<usize>) -> Option<usize>
    ensures { result ≡ first_offset first second }
{
    match first {
        Some(at) => Some(at),
        None => second,
    }
}

// One column for the node of each selector. Selectors from 2^32 on have none.
fn node_columns(alloc: Global, names: &[Name]) -> Result<List<Column>, AllocError>
    ensures { IfOk result (λ columns. columns ≡ node_columns 0 names.now) }
{
    let mut columns = List::new(alloc);
    let mut rest = names;
    let mut place: u32 = 0;
    while let [_, more @ ..] = rest {
        rest = more;
        columns.push(Column::Node(place))?;
        let Some(next) = place.checked_add(1) else {
            break;
        };
        place = next;
    }
    Ok(columns)
}

impl<'a> Cursor<'a> {
    // Reads past a name.
    pub(crate) fn any_name(&mut self) -> Result<(), SqlFault>
        ensures { Reads result self.new (any_name_at self.old) }
    {
        if name_first(self.pieces).is_none() {
            return Err(self.fault());
        }
        self.advance();
        Ok(())
    }

    // [AS name]
    fn alias(&mut self) -> Result<(), SqlFault>
        ensures { Reads result self.new (alias_at self.old) }
    {
        if self.is_word("AS") {
            self.advance();
            self.any_name()?;
        }
        Ok(())
    }

    // column = name.* | property [AS name], as long as the selectors aren't known. Answers the offset of a property
    // without a selector's name.
    fn skim_column(&mut self) -> Result<Option<usize>, SqlFault>
        ensures { Reads result self.new (skim_column self.old) }
    {
        let at = self.place();
        self.any_name()?;
        if self.is_sign(Sign::Dot) {
            self.advance();
            if self.is_sign(Sign::Star) {
                self.advance();
                return Ok(None);
            }
            self.any_name()?;
            self.alias()?;
            return Ok(None);
        }
        self.alias()?;
        Ok(Some(at))
    }

    // A further column, behind its comma.
    fn skim_more(&mut self, bare: Option<usize>) -> Result<Option<usize>, SqlFault>
        ensures { Reads result self.new (skim_more bare self.old) }
    {
        self.advance();
        let next = self.skim_column()?;
        Ok(first_of(bare, next))
    }

    // columns = * | column {, column}, as long as the selectors aren't known. Answers the offset of the first property
    // without a selector's name.
    pub(crate) fn skim_columns(&mut self) -> Result<Option<usize>, SqlFault>
        ensures { Reads result self.new (skim_columns self.old) }
    {
        if self.is_sign(Sign::Star) {
            self.advance();
            return Ok(None);
        }
        let mut bare = self.skim_column()?;
        let mut turns = self.pieces;
        while let [_, more @ ..] = turns {
            if !self.is_sign(Sign::Comma) {
                break;
            }
            turns = more;
            bare = self.skim_more(bare)?;
        }
        Ok(bare)
    }

    // column = name.* | property [AS name]
    fn column(&mut self, names: &[Name]) -> Result<Column, SqlFault>
        ensures { Reads result self.new (column_at names.now self.old) }
    {
        if nodes_first(self.pieces) {
            let selector = self.declared(names)?;
            self.advance();
            self.advance();
            return Ok(Column::Node(selector));
        }
        let property = self.property(names)?;
        self.alias()?;
        Ok(Column::Property(property))
    }

    // A further column, behind its comma.
    fn column_more(
        &mut self,
        names: &[Name],
        columns: List<Column>,
    ) -> Result<List<Column>, SqlFault>
        ensures { Reads result self.new (column_more names.now columns self.old) }
    {
        self.advance();
        let column = self.column(names)?;
        let mut columns = columns;
        columns.push(column)?;
        Ok(columns)
    }

    // The columns, as far as the first.
    fn first_column(&mut self, alloc: Global, names: &[Name]) -> Result<List<Column>, SqlFault>
        ensures { Reads result self.new (first_column names.now self.old) }
    {
        let column = self.column(names)?;
        let mut columns = List::new(alloc);
        columns.push(column)?;
        Ok(columns)
    }

    // columns = * | column {, column}
    pub(crate) fn columns(
        &mut self,
        alloc: Global,
        names: &[Name],
    ) -> Result<List<Column>, SqlFault>
        ensures { Reads result self.new (columns_at names.now self.old) }
    {
        if self.is_sign(Sign::Star) {
            let columns = node_columns(alloc, names)?;
            self.advance();
            return Ok(columns);
        }
        let mut columns = self.first_column(alloc, names)?;
        let mut turns = self.pieces;
        while let [_, more @ ..] = turns {
            if !self.is_sign(Sign::Comma) {
                break;
            }
            turns = more;
            columns = self.column_more(names, columns)?;
        }
        Ok(columns)
    }
}
