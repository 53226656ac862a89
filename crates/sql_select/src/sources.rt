// The selectors of a query and their joins.
ghost use Rattle.std.specs.Prelude.{◌≡◌, IfOk};
ghost use Rattle.sql_select.specs.Selected.{join_at, join_first, join_kind_at, no_bare, on_at, outer_join, pair_at, selector_at, source_at, sources_at};
ghost use Rattle.sql_pieces.specs.Reading.{Gives, Reads, ReadsAs};

use crate::cursor::Cursor;
use jr_path::{DeepCopy, List, Name};
use sql_pieces::{Placed, Sign, SqlFault, word_first};
use sql_query::{Join, JoinKind, On};
use std::alloc::Global;

/// The selectors of a query, and how they are joined.
#[derive(Drop)]
pub struct Sources {
    /// The types of the selectors, in order.
    pub types: List<Name>,
    /// The names of the selectors, in order.
    pub names: List<Name>,
    /// The join of each selector but the first.
    pub joins: List<Join>,
}

// Whether a join begins here.
fn join_first(pieces: &[Placed]) -> bool
    ensures { result ≡ join_first pieces.now }
{
    word_first("JOIN", pieces)
        || word_first("INNER", pieces)
        || word_first("LEFT", pieces)
        || word_first("RIGHT", pieces)
}

// Where there are several selectors, a property without a selector's name is a fault.
fn no_bare(bare: Option<usize>) -> Result<(), SqlFault>
    ensures { Gives result (no_bare bare) }
{
    match bare {
        Some(at) => Err(SqlFault::InvalidQuery(at)),
        None => Ok(()),
    }
}

impl<'a> Cursor<'a> {
    // Whether a join comes next.
    pub(crate) fn is_join(&self) -> bool
        ensures { result ≡ join_first self.now.pieces }
    {
        join_first(self.pieces)
    }

    // selector = name [AS name], as its type and its name
    pub(crate) fn selector(&mut self) -> Result<(Name, Name), SqlFault>
        ensures { Reads result self.new (selector_at self.old) }
    {
        let kind = self.name()?;
        if self.is_word("AS") {
            self.advance();
            let name = self.name()?;
            return Ok((kind, name));
        }
        let name = kind.copy()?;
        Ok((kind, name))
    }

    // OUTER JOIN
    fn outer_join(&mut self, kind: JoinKind) -> Result<JoinKind, SqlFault>
        ensures { Reads result self.new (outer_join kind self.old) }
    {
        self.word("OUTER")?;
        self.word("JOIN")?;
        Ok(kind)
    }

    // [INNER | LEFT OUTER | RIGHT OUTER] JOIN
    pub(crate) fn join_kind(&mut self) -> Result<JoinKind, SqlFault>
        ensures { Reads result self.new (join_kind_at self.old) }
    {
        if self.is_word("JOIN") {
            self.advance();
            return Ok(JoinKind::Inner);
        }
        if self.is_word("INNER") {
            self.advance();
            self.word("JOIN")?;
            return Ok(JoinKind::Inner);
        }
        if self.is_word("LEFT") {
            self.advance();
            return self.outer_join(JoinKind::LeftOuter);
        }
        self.advance();
        self.outer_join(JoinKind::RightOuter)
    }

    // ( name , name ), behind a function's word
    fn pair(&mut self, names: &[Name]) -> Result<(u32, u32), SqlFault>
        ensures { Reads result self.new (pair_at names.now self.old) }
    {
        self.advance();
        self.sign(Sign::Open)?;
        let first = self.declared(names)?;
        self.sign(Sign::Comma)?;
        let second = self.declared(names)?;
        self.sign(Sign::Close)?;
        Ok((first, second))
    }

    // on = property = property | ISSAMENODE(name, name) | ISCHILDNODE(name, name) | ISDESCENDANTNODE(name, name)
    fn on(&mut self, names: &[Name]) -> Result<On, SqlFault>
        ensures { Reads result self.new (on_at names.now self.old) }
    {
        if self.is_call("ISSAMENODE") {
            let pair = self.pair(names)?;
            return Ok(On::Same(pair.0, pair.1));
        }
        if self.is_call("ISCHILDNODE") {
            let pair = self.pair(names)?;
            return Ok(On::Child(pair.0, pair.1));
        }
        if self.is_call("ISDESCENDANTNODE") {
            let pair = self.pair(names)?;
            return Ok(On::Descendant(pair.0, pair.1));
        }
        let first = self.property(names)?;
        self.sign(Sign::Equal)?;
        let second = self.property(names)?;
        Ok(On::Equal(first, second))
    }

    // join = [INNER | LEFT OUTER | RIGHT OUTER] JOIN selector ON on
    fn join(&mut self, bare: Option<usize>, sources: &mut Sources) -> Result<(), SqlFault>
        ensures { ReadsAs (λ _. sources.new) result self.new (join_at bare sources.old self.old) }
    {
        let kind = self.join_kind()?;
        let (node_type, name) = self.selector()?;
        no_bare(bare)?;
        self.word("ON")?;
        sources.types.push(node_type)?;
        sources.names.push(name)?;
        let on = self.on(sources.names.as_slice())?;
        sources.joins.push(Join { kind, on })?;
        Ok(())
    }

    // The sources of a query with one selector.
    fn source(&mut self, alloc: Global) -> Result<Sources, SqlFault>
        ensures { Reads result self.new (source_at self.old) }
    {
        let (node_type, name) = self.selector()?;
        let mut types = List::new(alloc);
        types.push(node_type)?;
        let mut names = List::new(alloc);
        names.push(name)?;
        Ok(Sources {
            types,
            names,
            joins: List::new(alloc),
        })
    }

    // selector {join}
    pub(crate) fn sources(
        &mut self,
        alloc: Global,
        bare: Option<usize>,
    ) -> Result<Sources, SqlFault>
        ensures { Reads result self.new (sources_at bare self.old) }
    {
        let mut sources = self.source(alloc)?;
        let mut turns = self.pieces;
        while let [_, more @ ..] = turns {
            if !self.is_join() {
                break;
            }
            turns = more;
            self.join(bare, &mut sources)?;
        }
        Ok(sources)
    }
}
