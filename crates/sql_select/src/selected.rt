// A query as far as its selectors.
ghost use Rattle.std.specs.Prelude.{◌≡◌};
ghost use Rattle.sql_pieces.specs.Reading.{Gives, Reads};
ghost use Rattle.sql_select.specs.Selected.{columns_before, columns_named, columns_stand, froms_at, is_whole, is_all_read, selected_at, skim_froms, whole_at};

use crate::cursor::{Cursor, kept};
use crate::sources::Sources;
use jr_path::{List, Name};
use sql_pieces::SqlFault;
use sql_query::Column;
use std::alloc::Global;

impl<'a> Cursor<'a> {
    /// Whether nothing is left.
    pub fn is_over(&self) -> bool
        ensures { result ≡ is_all_read self.now.pieces }
    {
        self.pieces.is_empty()
    }

    // Whether the list of selectors is whole here.
    fn is_whole(&self) -> bool
        ensures { result ≡ is_whole self.now.pieces }
    {
        self.is_over() || self.is_word("WHERE") || self.is_word("ORDER")
    }

    // The list of selectors is whole here.
    fn whole(&self) -> Result<(), SqlFault>
        ensures { Gives result (whole_at self.now) }
    {
        if self.is_whole() {
            Ok(())
        } else {
            Err(self.fault())
        }
    }

    // columns FROM selector {join}, as far as the selectors
    fn froms(&mut self, alloc: Global) -> Result<Sources, SqlFault>
        ensures { Reads result self.new (froms_at self.old) }
    {
        let bare = self.skim_columns()?;
        self.word("FROM")?;
        let sources = self.sources(alloc, bare)?;
        self.whole()?;
        Ok(sources)
    }

    // What follows here, to be read once more.
    fn again(&self) -> Cursor<'a>
        ensures { result ≡ self.now }
    {
        Cursor {
            pieces: self.pieces,
            stop: self.stop,
            refused: self.refused,
        }
    }

    // columns FROM selector {join}, as the names of the selectors, whatever the names in ON mean
    fn skim_froms(&mut self, alloc: Global) -> Result<List<Name>, SqlFault>
        ensures { Reads result self.new (skim_froms self.old) }
    {
        self.skim_columns()?;
        self.word("FROM")?;
        let names = self.skim_sources(alloc)?;
        let whole = self.whole();
        kept(names, whole)
    }

    // The columns that come next name selectors of these.
    fn columns_named(&self, alloc: Global, names: &[Name]) -> Result<(), SqlFault>
        ensures { Gives result (columns_named names.now self.now) }
    {
        self.again().columns(alloc, names)?;
        Ok(())
    }

    // The columns that come next name selectors that are there, once the selectors are whole.
    fn columns_stand(&self, alloc: Global) -> Result<(), SqlFault>
        ensures { Gives result (columns_stand self.now (skim_froms self.now)) }
    {
        match self.again().skim_froms(alloc) {
            Ok(names) => self.columns_named(alloc, names.as_slice()),
            Err(SqlFault::InvalidQuery(_)) => Ok(()),
            Err(fault) => Err(fault),
        }
    }

    // columns FROM selector {join}, as far as the selectors. A fault in the names of the columns, which begin at
    // another cursor, stands before one behind them.
    fn columns_before(&mut self, alloc: Global, columns: &Cursor<'a>) -> Result<Sources, SqlFault>
        ensures { Reads result self.new (columns_before columns.now (froms_at self.old)) }
    {
        match self.froms(alloc) {
            Ok(sources) => Ok(sources),
            Err(SqlFault::InvalidQuery(at)) => {
                columns.columns_stand(alloc)?;
                Err(SqlFault::InvalidQuery(at))
            }
            Err(fault) => Err(fault),
        }
    }

    /// SELECT columns FROM selector {join}. The names in the columns mean something only once the selectors are known,
    /// so the columns are read twice.
    #[tactic(auto, unfolding(crate::specs::Selected::selected_at))]
    pub fn selected(&mut self, alloc: Global) -> Result<(Sources, List<Column>), SqlFault>
        ensures { Reads result self.new (selected_at self.old) }
    {
        self.word("SELECT")?;
        let mut again = self.again();
        let sources = self.columns_before(alloc, &again)?;
        let columns = again.columns(alloc, sources.names.as_slice())?;
        Ok((sources, columns))
    }
}
