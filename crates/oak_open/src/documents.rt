// The documents that an opened repository begins with.
ghost use Rattle.std.specs.Prelude.{◌≡◌, ◌≤◌, ◌<◌, ◌+◌, ◌-◌, ◌^◌, ◌++◌, ◌==◌, []};
ghost use Rattle.std.specs.Prelude.{cond, nat_le, not, IfOk, IsTrue, OnOk, length};
ghost use Rattle.std.specs.BTreeMap.{insert_entry};
ghost use Rattle.jr_path.specs.Names.{name_cmp};
ghost use Rattle.std.specs.List.{filter, flat_map, list_all};
ghost use Rattle.std.specs.Map.{keys_of, values_of};
ghost use Rattle.jr_rev.specs.Revisions.{revision_cmp};
ghost use Rattle.jr_rev.specs.Vectors.{sees};
ghost use Rattle.oak_open.specs.Opened.{cleaned, dated_in, changes_at_opening, is_clean};
ghost use Rattle.oak_open.specs.Opened.{is_root_id};
ghost use Rattle.oak_open.specs.Opened.{is_settings_id, opened_from, begun_anew};
ghost use Rattle.oak_open.specs.Opened.{stays_opened, those, values_left};

use jr_path::{DeepCopy, DocId, Keyed, List, Name, Text};
use jr_rev::{Pin, RevVec, Revision};
use jr_value::Property;
use oak_doc::{Document, PrevEntry};
use oak_read::counts;
use oak_sound::ById;
use std::alloc::{AllocError, Global};

// The values of a property by revision.
type Values = Keyed<Revision, Option<Property>>;

/// What is opened, at which vectors, and for how many sessions.
#[derive(Clone, Copy)]
pub struct Opening<'a> {
    pub alloc: Global,
    pub documents: &'a ById,
    pub pin: &'a Pin,
    pub sessions: u32,
}

// ---- whether a document changes

/// Whether opening changes a document.
pub fn changes_at_opening(opening: &Opening<'_>, document: &Document) -> Result<bool, AllocError>
    ensures { IfOk result (λ is. is
        ≡ changes_at_opening opening.now.documents.now opening.now.pin.now document.now) }
{
    if is_root_id(&document.id) || is_settings_id(&document.id) {
        return Ok(true);
    }
    let is_clean = is_clean(opening, document)?;
    Ok(!is_clean)
}

fn is_root_id(id: &DocId) -> bool
    ensures { result ≡ is_root_id id.now }
{
    match id {
        DocId::Node(path) => path.depth() == 0,
        _ => false,
    }
}

fn is_settings_id(id: &DocId) -> bool
    ensures { result ≡ is_settings_id id.now }
{
    matches!(id, DocId::Settings)
}

// Whether nothing of a document goes.
fn is_clean(opening: &Opening<'_>, document: &Document) -> Result<bool, AllocError>
    ensures { IfOk result (λ is. is
        ≡ is_clean opening.now.documents.now opening.now.pin.now document.now) }
{
    if !all_stay(opening, document)? {
        return Ok(false);
    }
    Ok(
        are_seen(opening.pin, &document.revisions)
            && document.collisions.len() == 0
            && have_values(&document.props),
    )
}

// Whether all that may go otherwise stays.
fn all_stay(opening: &Opening<'_>, document: &Document) -> Result<bool, AllocError>
    ensures { IfOk result (λ all. all
        ≡ list_all (stays_opened opening.now.documents.now opening.now.pin.now document.now)
        (dated_in document.now)) }
{
    if !entries_stay(opening, document, &document.deleted)? {
        return Ok(false);
    }
    if !entries_stay(opening, document, &document.commit_root)? {
        return Ok(false);
    }
    marks_and_values_stay(opening, document)
}

fn marks_and_values_stay(opening: &Opening<'_>, document: &Document) -> Result<bool, AllocError>
    ensures { IfOk result (λ all. all
        ≡ list_all (stays_opened opening.now.documents.now opening.now.pin.now document.now)
        (keys_of document.now.touched ++ keys_of document.now.guard
        ++ flat_map (λ p. keys_of p.1) document.now.props)) }
{
    if !entries_stay(opening, document, &document.touched)? {
        return Ok(false);
    }
    if !entries_stay(opening, document, &document.guard)? {
        return Ok(false);
    }
    values_stay(opening, document)
}

fn values_stay(opening: &Opening<'_>, document: &Document) -> Result<bool, AllocError>
    ensures { IfOk result (λ all. all
        ≡ list_all (stays_opened opening.now.documents.now opening.now.pin.now document.now)
        (flat_map (λ p. keys_of p.1) document.now.props)) }
{
    for (_, values) in document.props.iter() {
        if !entries_stay(opening, document, values)? {
            return Ok(false);
        }
    }
    Ok(true)
}

fn entries_stay<V>(
    opening: &Opening<'_>,
    document: &Document,
    entries: &Keyed<Revision, V>,
) -> Result<bool, AllocError>
    ensures { IfOk result (λ all. all
        ≡ list_all (stays_opened opening.now.documents.now opening.now.pin.now document.now)
        (keys_of entries.now)) }
{
    for (r, _) in entries.iter() {
        if !stays_opened(opening, document, *r)? {
            return Ok(false);
        }
    }
    Ok(true)
}

/// Whether what a document keeps by a revision stays: the base sees the revision, and it is
/// committed as it stands in the document.
pub fn stays_opened(
    opening: &Opening<'_>,
    document: &Document,
    r: Revision,
) -> Result<bool, AllocError>
    ensures { IfOk result (λ told. told
        ≡ stays_opened opening.now.documents.now opening.now.pin.now document.now r) }
{
    counts(opening.alloc, opening.documents, opening.pin, document, r)
}

fn are_seen<V>(pin: &Pin, entries: &Keyed<Revision, V>) -> bool
    ensures { result ≡ list_all (sees pin.now.base) (keys_of entries.now) }
{
    for (r, _) in entries.iter() {
        if !pin.base.sees(*r) {
            return false;
        }
    }
    true
}

fn have_values(props: &Keyed<Name, Values>) -> bool
    ensures { result ≡ list_all (λ p. not (length p.1 == 0)) props.now }
{
    for (_, values) in props.iter() {
        if values.len() == 0 {
            return false;
        }
    }
    true
}

// ---- what stays

// The entries that stay.
fn staying<V: DeepCopy + Drop>(
    opening: &Opening<'_>,
    document: &Document,
    entries: &Keyed<Revision, V>,
) -> Result<Keyed<Revision, V>, AllocError>
    ensures { IfOk result (λ left. left
        ≡ those (stays_opened opening.now.documents.now opening.now.pin.now document.now)
        entries.now) }
{
    let _ = entries.len();
    let mut left = Keyed::new(opening.alloc);
    for (r, value) in entries.iter() {
        let stays = stays_opened(opening, document, *r)?;
        put_if(stays, &mut left, *r, value)?;
    }
    Ok(left)
}

// The statuses that the base sees.
fn seen(
    pin: &Pin,
    alloc: Global,
    entries: &Keyed<Revision, ()>,
) -> Result<Keyed<Revision, ()>, AllocError>
    ensures { IfOk result (λ left. left ≡ those (sees pin.now.base) entries.now) }
{
    let _ = entries.len();
    let mut left = Keyed::new(alloc);
    for (r, value) in entries.iter() {
        put_if(pin.base.sees(*r), &mut left, *r, value)?;
    }
    Ok(left)
}

// Puts a copy of a value at a revision, if told so.
fn put_if<V: DeepCopy + Drop>(
    told: bool,
    left: &mut Keyed<Revision, V>,
    r: Revision,
    value: &V,
) -> Result<(), AllocError>
    ensures { OnOk result (left.new
        ≡ cond told (insert_entry revision_cmp left.old r value.now) left.old) }
{
    if told {
        return left.put(r, value.copy()?);
    }
    Ok(())
}

// The properties with the values that stay, but for those that are left without one.
fn staying_values(
    opening: &Opening<'_>,
    document: &Document,
) -> Result<Keyed<Name, Values>, AllocError>
    ensures { IfOk result (λ left. left
        ≡ values_left (stays_opened opening.now.documents.now opening.now.pin.now document.now)
        document.now.props) }
{
    let _ = document.props.len();
    let mut left = Keyed::new(opening.alloc);
    for (name, values) in document.props.iter() {
        let values = staying(opening, document, values)?;
        put_values(&mut left, name, values)?;
    }
    Ok(left)
}

// Puts values of a property, where there are some.
fn put_values(left: &mut Keyed<Name, Values>, name: &Name, values: Values) -> Result<(), AllocError>
    ensures { OnOk result (left.new ≡ cond (length values == 0) left.old
        (insert_entry name_cmp left.old name.now values)) }
{
    if values.len() == 0 {
        return Ok(());
    }
    left.put(name.copy()?, values)
}

// What a document keeps by revision of its node, as far as that stays.
#[derive(Drop)]
struct Marks {
    deleted: Keyed<Revision, bool>,
    commit_root: Keyed<Revision, u32>,
    touched: Keyed<Revision, ()>,
    guard: Keyed<Revision, ()>,
}

fn staying_marks(opening: &Opening<'_>, document: &Document) -> Result<Marks, AllocError>
    ensures { IfOk result (λ marks. (marks.deleted
        ≡ those (stays_opened opening.now.documents.now opening.now.pin.now document.now)
        document.now.deleted)
        × (marks.commit_root
        ≡ those (stays_opened opening.now.documents.now opening.now.pin.now document.now)
        document.now.commit_root)
        × (marks.touched
        ≡ those (stays_opened opening.now.documents.now opening.now.pin.now document.now)
        document.now.touched)
        × (marks.guard
        ≡ those (stays_opened opening.now.documents.now opening.now.pin.now document.now)
        document.now.guard)) }
{
    Ok(Marks {
        deleted: staying(opening, document, &document.deleted)?,
        commit_root: staying(opening, document, &document.commit_root)?,
        touched: staying(opening, document, &document.touched)?,
        guard: staying(opening, document, &document.guard)?,
    })
}

// The checkpoints and readers of a document; the settings lose them.
#[derive(Drop)]
struct Pins {
    checkpoints: Keyed<Text, Pin>,
    readers: Keyed<u32, Pin>,
}

fn pins_left(alloc: Global, document: &Document) -> Result<Pins, AllocError>
    ensures { IfOk result (λ pins. (pins.checkpoints
        ≡ cond (is_settings_id document.now.id) [] document.now.checkpoints)
        × (pins.readers ≡ cond (is_settings_id document.now.id) [] document.now.readers)) }
{
    if is_settings_id(&document.id) {
        return Ok(Pins {
            checkpoints: Keyed::new(alloc),
            readers: Keyed::new(alloc),
        });
    }
    Ok(Pins {
        checkpoints: document.checkpoints.copy()?,
        readers: document.readers.copy()?,
    })
}

// How many sessions there have been; the settings count so many more.
fn sessions_counted(document: &Document, sessions: u32) -> u32
    requires few { IsTrue (nat_le document.now.sessions 16777152) }
    requires more { sessions ≤ 64 }
    ensures { result ≡ cond (is_settings_id document.now.id) (document.now.sessions + sessions)
        document.now.sessions }
{
    if is_settings_id(&document.id) {
        return document.sessions + sessions;
    }
    document.sessions
}

// The vector, of the root; else a document's own.
fn settled_vector(id: &DocId, base: &RevVec, own: &RevVec) -> RevVec
    ensures { result ≡ cond (is_root_id id.now) base.now own.now }
{
    if is_root_id(id) { *base } else { *own }
}

// A document as it is opened, with its number.
fn opened_document(
    opening: &Opening<'_>,
    document: &Document,
    mod_count: u64,
) -> Result<Document, AllocError>
    requires few { IsTrue (nat_le document.now.sessions 16777152) }
    requires more { opening.now.sessions ≤ 64 }
    ensures { IfOk result (λ d. d ≡ record (begun_anew opening.now.pin.now.base opening.now.sessions
        (cleaned opening.now.documents.now opening.now.pin.now document.now))
        { mod_count = mod_count }) }
{
    let id = document.id.copy()?;
    let marks = staying_marks(opening, document)?;
    let pins = pins_left(opening.alloc, document)?;
    let contents = staying_contents(opening, document)?;
    Ok(Document {
        id,
        mod_count,
        deleted: marks.deleted,
        commit_root: marks.commit_root,
        revisions: contents.revisions,
        collisions: Keyed::new(opening.alloc),
        touched: marks.touched,
        guard: marks.guard,
        last_rev: settled_vector(&document.id, &opening.pin.base, &document.last_rev),
        sweep_rev: settled_vector(&document.id, &opening.pin.base, &document.sweep_rev),
        prev: contents.prev,
        props: contents.props,
        sessions: sessions_counted(document, opening.sessions),
        checkpoints: pins.checkpoints,
        readers: pins.readers,
    })
}

// The statuses that are seen, the values that stay, and the previous documents that are listed.
#[derive(Drop)]
struct Contents {
    revisions: Keyed<Revision, ()>,
    props: Keyed<Name, Values>,
    prev: List<PrevEntry>,
}

fn staying_contents(opening: &Opening<'_>, document: &Document) -> Result<Contents, AllocError>
    ensures { IfOk result (λ c. (c.revisions
        ≡ those (sees opening.now.pin.now.base) document.now.revisions)
        × (c.props
        ≡ values_left (stays_opened opening.now.documents.now opening.now.pin.now document.now)
        document.now.props)
        × (c.prev ≡ document.now.prev)) }
{
    Ok(Contents {
        revisions: seen(opening.pin, opening.alloc, &document.revisions)?,
        props: staying_values(opening, document)?,
        prev: document.prev.copy()?,
    })
}

/// The opened documents, of which each that changes has the next number in store order, and the
/// last number.
pub fn opened_documents(
    opening: &Opening<'_>,
    number: u64,
) -> Result<(Vec<Document>, u64), AllocError>
    requires few { IsTrue (list_all (λ e. nat_le e.1.sessions 16777152) opening.now.documents.now) }
    requires more { opening.now.sessions ≤ 64 }
    requires low { number < 2 ^ 63 }
    ensures { IfOk result (λ o. (o.0.items, o.1)
        ≡ opened_from opening.now.documents.now opening.now.pin.now
        opening.now.sessions number (values_of opening.now.documents.now)) }
{
    let mut opened = Vec::new(opening.alloc);
    let mut last = number;
    for (_, document) in opening.documents.iter() {
        let is_changed = changes_at_opening(opening, document)?;
        last = number_after(is_changed, last);
        let mod_count = number_of(is_changed, last, document);
        opened.push(opened_document(opening, document, mod_count)?)?;
    }
    Ok((opened, last))
}

// The number drawn last, after a document that changes or not.
fn number_after(is_changed: bool, last: u64) -> u64
    requires { last < 2 ^ 64 - 1 }
    ensures { result ≡ cond is_changed (last + 1) last }
{
    if is_changed { last + 1 } else { last }
}

// The number of a document that changes or not, where that was drawn last.
fn number_of(is_changed: bool, last: u64, document: &Document) -> u64
    ensures { result ≡ cond is_changed last document.now.mod_count }
{
    if is_changed { last } else { document.mod_count }
}
