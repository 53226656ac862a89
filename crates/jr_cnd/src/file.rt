// A whole text of type definitions.
ghost use Rattle.std.specs.Prelude.{◌≡◌, IfOk, map, option_map};
ghost use Rattle.jr_builtin.specs.Builtin.{builtin};
ghost use Rattle.jr_cnd.specs.Grammar.{file_at, file_more, prefix_at, prefix_more, prefix_name_at, prefix_token, type_more};
ghost use Rattle.jr_cnd.specs.Meaning.{IsAsMeant, IsCndAnswer, IsJudged, IsRegistering, first_bad, judged_file, meaning};
ghost use Rattle.jr_cnd.specs.Reading.{Reads};

use crate::cursor::{Cursor, bare_first};
use crate::{Cnd, NoCnd, Prefix};
use cnd_pieces::{Placed, Sign, is_prefix, pieces_of};
use jr_builtin::builtin;
use jr_path::{DeepCopy, List, Text};
use jr_types::{Registry, TypeDef, TypeFault};
use std::alloc::{AllocError, Global};

/// A definition, and the offset of its `[`.
#[derive(Drop)]
pub struct PlacedType {
    pub start: usize,
    pub definition: TypeDef,
}

/// What was read of a text.
#[derive(Drop)]
pub struct File {
    pub prefixes: List<Prefix>,
    pub types: List<PlacedType>,
}

// The token, where it is a prefix.
fn prefix_token(token: Option<&str>) -> Option<&str>
    ensures { option_map (λ t. t.now) result ≡ prefix_token (option_map (λ t. t.now) token.entry) }
{
    match token {
        Some(token) => { if is_prefix(token) { Some(token) } else { None } }
        None => None,
    }
}

impl<'a> Cursor<'a> {
    // A prefix, as it is declared.
    fn prefix_name(&mut self) -> Result<Text, NoCnd>
        ensures { Reads result self.new (prefix_name_at self.old) }
    {
        match prefix_token(bare_first(self.pieces)) {
            Some(token) => {
                let prefix = Text::copy_of(self.alloc, token)?;
                self.advance();
                Ok(prefix)
            }
            None => Err(self.fault()),
        }
    }

    // < prefix = 'uri' >, behind `<`
    fn prefix(&mut self) -> Result<Prefix, NoCnd>
        ensures { Reads result self.new (prefix_at self.old) }
    {
        let prefix = self.prefix_name()?;
        self.sign(Sign::Equal)?;
        let uri = self.text()?;
        self.sign(Sign::Greater)?;
        Ok(Prefix { prefix, uri })
    }

    fn prefix_more(&mut self, file: File) -> Result<File, NoCnd>
        ensures { Reads result self.new (prefix_more file self.old) }
    {
        self.advance();
        let prefix = self.prefix()?;
        let mut file = file;
        file.prefixes.push(prefix)?;
        Ok(file)
    }

    fn type_more(&mut self, file: File) -> Result<File, NoCnd>
        ensures { Reads result self.new (type_more file self.old) }
    {
        let start = self.place();
        let definition = self.definition()?;
        let mut file = file;
        file.types.push(PlacedType { start, definition })?;
        Ok(file)
    }

    // A further prefix or type.
    fn file_more(&mut self, file: File) -> Result<File, NoCnd>
        ensures { Reads result self.new (file_more file self.old) }
    {
        if self.is_sign(Sign::Less) {
            return self.prefix_more(file);
        }
        self.type_more(file)
    }

    // file = { <prefix = 'uri'> | type }
    fn file(&mut self) -> Result<File, NoCnd>
        ensures { Reads result self.new (file_at self.old) }
    {
        let mut file = File {
            prefixes: List::new(self.alloc),
            types: List::new(self.alloc),
        };
        let mut turns = self.pieces;
        while let [_, more @ ..] = turns {
            if self.is_over() {
                break;
            }
            turns = more;
            file = self.file_more(file)?;
        }
        Ok(file)
    }
}

// Registers a definition; where it breaks a rule, the fault is at its place.
fn register(registry: &mut Registry, placed: &PlacedType) -> Result<(), NoCnd>
    ensures { IsRegistering registry.old placed.now registry.new result }
{
    match registry.add(placed.definition.copy()?) {
        Ok(()) => Ok(()),
        Err(TypeFault::BadType(_)) => Err(NoCnd::BadDef(placed.start)),
        Err(TypeFault::Memory) => Err(NoCnd::Memory),
    }
}

// The definitions keep the rules of the registry, each over those before it.
fn judge(registry: &mut Registry, types: &[PlacedType]) -> Result<(), NoCnd>
    ensures { IsJudged (first_bad registry.old types.now) result }
{
    let mut rest = types;
    while let [first, more @ ..] = rest {
        register(registry, first)?;
        rest = more;
    }
    Ok(())
}

// The definitions keep the rules of the registry, over the built-in types and those before them.
fn keep_rules(alloc: Global, types: &[PlacedType]) -> Result<(), NoCnd>
    ensures { IsJudged (first_bad builtin types.now) result }
{
    let mut registry = builtin(alloc)?;
    judge(&mut registry, types)
}

// The definitions without their places.
fn definitions_of(alloc: Global, types: List<PlacedType>) -> Result<List<TypeDef>, AllocError>
    ensures { IfOk result (λ definitions. definitions ≡ map (λ d. d.definition) types) }
{
    let mut definitions = List::new(alloc);
    for placed in types.into_inner() {
        definitions.push(placed.definition)?;
    }
    Ok(definitions)
}

// What a file of the grammar means.
fn judged(alloc: Global, file: File) -> Result<Cnd, NoCnd>
    ensures { IsAsMeant result (judged_file file) }
{
    keep_rules(alloc, file.types.as_slice())?;
    let definitions = definitions_of(alloc, file.types)?;
    Ok(Cnd {
        prefixes: file.prefixes,
        definitions,
    })
}

// What pieces mean, in a text of this length.
fn meaning(alloc: Global, pieces: &[Placed], stop: usize) -> Result<Cnd, NoCnd>
    ensures { IsAsMeant result (meaning pieces.now stop) }
{
    let mut cursor = Cursor {
        alloc,
        pieces,
        stop,
    };
    let file = cursor.file()?;
    judged(alloc, file)
}

/// Reads a text of prefixes and node types (JSR 283, 25.2 Compact Node Type Definition Notation): `{<prefix = 'uri'> | type}`,
/// as docs/FORMATS.md has the grammar. The definitions keep the rules of `Registry::add`, over the built-in types and those
/// before them. A fault of the grammar, wherever it stands, comes before those of the definitions.
pub fn read_cnd(alloc: Global, text: &str) -> Result<Cnd, NoCnd>
    ensures { IsCndAnswer text.now result }
{
    let pieces = pieces_of(alloc, text)?;
    meaning(alloc, pieces.as_slice(), text.len())
}
