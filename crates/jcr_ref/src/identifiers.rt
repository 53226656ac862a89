// Identifiers: their texts and numbers, and the node that has one.
ghost use Rattle.std.specs.Prelude.{◌≡◌, false, IfOk};
ghost use Rattle.std.specs.Option.{option_copied, option_map_or};
ghost use Rattle.std.specs.String.{string_bytes};
ghost use Rattle.jr_value.specs.Values.{same_bytes};
ghost use Rattle.jr_items.specs.Items.{one_text, same_path};
ghost use Rattle.jr_items.specs.Names.{uuid};
ghost use Rattle.jcr_ref.specs.References.{IsPathNamed, node_by_id, identifier, identifier_number, identifier_of, uuid_text};

use jr_items::{OwnName, is_same_text, one_text};
use jr_path::{DeepCopy, Name, Path, PathFault};
use jr_tree::Tree;
use std::alloc::{AllocError, Global};
use uuid::Uuid;

/// The number of a session's own identifier of that count: of each number the last six hexadecimal digits stand.
pub fn identifier_number(session: u32, count: u32) -> u128
    ensures { result ≡ identifier_number session count }
{
    let session = session as u128 % 0x100_0000;
    let count = count as u128 % 0x100_0000;
    0x4000_8000_0000_0000_0000 + session * 0x100_0000 + count
}

/// The text of a session's own identifier of that count (JSR 283, 3.8.3.6 jcr:uuid): `00000000-0000-4000-8000-`, then
/// six hexadecimal digits of the session's number and six of the count, the last six of longer ones.
pub fn identifier(alloc: Global, session: u32, count: u32) -> Result<String, AllocError>
    ensures { IfOk result (λ text. string_bytes text ≡ identifier session count) }
{
    uuid_text(alloc, identifier_number(session, count))
}

// The text of an identifier's number.
pub(crate) fn uuid_text(alloc: Global, number: u128) -> Result<String, AllocError>
    ensures { IfOk result (λ text. string_bytes text ≡ uuid_text number) }
{
    let mut buffer = Uuid::encode_buffer();
    let text = Uuid::from_u128(number)
        .hyphenated()
        .encode_lower(&mut buffer);
    String::from_str(alloc, text)
}

// Whether this is the text of an identifier's number. It takes no memory.
pub(crate) fn is_uuid_text(number: u128, id: &str) -> bool
    ensures { result ≡ same_bytes (uuid_text number) id.now }
{
    let mut buffer = Uuid::encode_buffer();
    let text = Uuid::from_u128(number)
        .hyphenated()
        .encode_lower(&mut buffer);
    is_same_text(text, id)
}

/// The first node in path order that has the identifier: its `jcr:uuid` where that is one STRING, and else its path.
pub fn by_id(alloc: Global, tree: &Tree, id: &str) -> Result<Option<Path>, AllocError>
    ensures { IfOk result (λ found. found ≡ node_by_id tree.now id.now) }
{
    let key = OwnName::Uuid.name(alloc)?;
    let named = path_named(alloc, id)?;
    first_with(tree, &key, id, named.as_ref())
}

// The first node with an identifier, which is the text of the named path, if of any.
fn first_with(
    tree: &Tree,
    key: &Name,
    id: &str,
    named: Option<&Path>,
) -> Result<Option<Path>, AllocError>
    requires key { key.now ≡ uuid }
    requires named { IsPathNamed id.now (option_copied named) }
    ensures { IfOk result (λ found. found ≡ node_by_id tree.now id.now) }
{
    for (at, _) in tree.iter() {
        if has_identifier(tree, key, at, id, named) {
            return Ok(Some(at.copy()?));
        }
    }
    Ok(None)
}

// The path whose text this is, if it is one.
fn path_named(alloc: Global, id: &str) -> Result<Option<Path>, AllocError>
    ensures { IfOk result (IsPathNamed id.now) }
{
    match Path::parse_unlimited(alloc, id) {
        Ok(path) => Ok(Some(path)),
        Err(PathFault::BadPath(_)) => Ok(None),
        Err(_) => Err(AllocError),
    }
}

// Whether the node has the identifier, which is the text of the named path, if of any.
fn has_identifier(tree: &Tree, key: &Name, at: &Path, id: &str, named: Option<&Path>) -> bool
    requires key { key.now ≡ uuid }
    requires named { IsPathNamed id.now (option_copied named) }
    ensures { result ≡ same_bytes (identifier_of tree.now at.now) id.now }
{
    match one_text(tree.property(at, key)) {
        Some(text) => is_same_text(text, id),
        None => {
            at.in_grammar();
            is_at(at, named)
        }
    }
}

fn is_at(at: &Path, named: Option<&Path>) -> bool
    ensures { result ≡ option_map_or (same_path at.now) (option_copied named.entry) false }
{
    match named {
        Some(path) => at == path,
        None => false,
    }
}
