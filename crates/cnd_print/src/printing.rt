// The canonical text of type definitions.
ghost use Rattle.std.specs.Prelude.{◌≡◌, ◌++◌, IfOk, OnOk, codes, map, string_bytes};
ghost use Rattle.std.specs.Fmt.{signed_decimal};
ghost use Rattle.std.specs.List.{flat_map, list_all};
ghost use Rattle.jr_value.specs.Words.{identifier_text};
ghost use Rattle.cnd_print.specs.Printing.{child_attributes, child_head, child_text, cnd_text, continued, default_texts, escaped, escaped_character, is_bare_name, item_name_text, kind_word, list_behind, with_commas, name_behind, name_text, opv_part, prefix_text, prop_attributes, prop_head, prop_text, quoted, type_attributes, type_head, type_line, type_text, value_text, word_if};
ghost use Rattle.cnd_pieces.specs.Tokens.{is_bare};

use base64::engine::general_purpose::STANDARD;
use cnd_pieces::is_bare;
use jr_cnd::{Cnd, Prefix};
use jr_path::{List, Name, Text};
use jr_types::{ChildDef, OnParentVersion, PropDef, TypeDef};
use jr_value::{Kind, Value, identifier_text};
use std::alloc::{AllocError, Global};

// ---- names and texts

// Whether a bare token stands for the name.
fn is_bare_name(name: &str) -> bool
    ensures { result ≡ is_bare_name name.now }
{
    match name.as_bytes() {
        [b'-', ..] => false,
        [] => false,
        bytes => are_bare(bytes),
    }
}

fn are_bare(bytes: &[u8]) -> bool
    ensures { result ≡ list_all is_bare bytes.now }
{
    bytes.iter().all(|byte| is_bare(*byte))
}

// A text in quotes, with a backslash before each quote and backslash.
fn put_quoted(out: &mut Text, text: &str) -> Result<(), AllocError>
    ensures { OnOk result (out.new ≡ out.old ++ quoted text.now) }
{
    out.push_str("'")?;
    put_escaped(out.inner_mut(), text)?;
    out.push_str("'")
}

fn put_escaped(out: &mut String, text: &str) -> Result<(), AllocError>
    ensures { OnOk result
        (string_bytes out.new ≡ string_bytes out.old ++ flat_map escaped text.now) }
{
    for c in text.chars() {
        put_character(out, c)?;
    }
    Ok(())
}

fn put_character(out: &mut String, c: char) -> Result<(), AllocError>
    ensures { OnOk result (string_bytes out.new ≡ string_bytes out.old ++ escaped_character c) }
{
    if c == '\'' {
        out.push_str("\\'")?;
        return Ok(());
    }
    if c == '\\' {
        out.push_str("\\\\")?;
        return Ok(());
    }
    out.push(c)?;
    Ok(())
}

// A name, bare where it can be.
fn put_name(out: &mut Text, name: &Name) -> Result<(), AllocError>
    ensures { OnOk result (out.new ≡ out.old ++ name_text name.now) }
{
    if is_bare_name(name.as_str()) {
        return out.push_str(name.as_str());
    }
    put_quoted(out, name.as_str())
}

// Names with commas between.
fn put_names(out: &mut Text, names: &[Name]) -> Result<(), AllocError>
    ensures { OnOk result (out.new ≡ out.old ++ with_commas (map name_text names.now)) }
{
    match names {
        [] => Ok(()),
        [first, more @ ..] => {
            put_name(out, first)?;
            put_more_names(out, more)
        }
    }
}

fn put_more_names(out: &mut Text, names: &[Name]) -> Result<(), AllocError>
    ensures { OnOk result (out.new ≡ out.old ++ continued (map name_text names.now)) }
{
    for name in names {
        put_one_more_name(out, name)?;
    }
    Ok(())
}

fn put_one_more_name(out: &mut Text, name: &Name) -> Result<(), AllocError>
    ensures { OnOk result (out.new ≡ out.old ++ (codes ", " ++ name_text name.now)) }
{
    out.push_str(", ")?;
    put_name(out, name)
}

// Texts in quotes with commas between.
fn put_texts(out: &mut Text, texts: &[Text]) -> Result<(), AllocError>
    ensures { OnOk result (out.new ≡ out.old ++ with_commas (map quoted texts.now)) }
{
    match texts {
        [] => Ok(()),
        [first, more @ ..] => {
            put_quoted(out, first.as_str())?;
            put_more_texts(out, more)
        }
    }
}

fn put_more_texts(out: &mut Text, texts: &[Text]) -> Result<(), AllocError>
    ensures { OnOk result (out.new ≡ out.old ++ continued (map quoted texts.now)) }
{
    for text in texts {
        put_one_more_text(out, text)?;
    }
    Ok(())
}

fn put_one_more_text(out: &mut Text, text: &Text) -> Result<(), AllocError>
    ensures { OnOk result (out.new ≡ out.old ++ (codes ", " ++ quoted text.now)) }
{
    out.push_str(", ")?;
    put_quoted(out, text.as_str())
}

// A word, where it is to stand.
fn put_if(out: &mut Text, stands: bool, word: &str) -> Result<(), AllocError>
    ensures { OnOk result (out.new ≡ out.old ++ word_if stands word.now) }
{
    if stands { out.push_str(word) } else { Ok(()) }
}

// A name behind a word, or nothing.
fn put_name_behind(out: &mut Text, word: &str, name: &Option<Name>) -> Result<(), AllocError>
    ensures { OnOk result (out.new ≡ out.old ++ name_behind word.now name.now) }
{
    match name {
        Some(name) => {
            out.push_str(word)?;
            put_name(out, name)
        }
        None => Ok(()),
    }
}

// ---- items

// A kind in capitals.
fn kind_word(kind: Option<Kind>) -> &'static str
    ensures { result.now ≡ kind_word kind }
{
    match kind {
        None => "undefined",
        Some(Kind::Str) => "STRING",
        Some(Kind::Binary) => "BINARY",
        Some(Kind::Long) => "LONG",
        Some(Kind::Date) => "DATE",
        Some(Kind::Boolean) => "BOOLEAN",
        Some(Kind::Name) => "NAME",
        Some(Kind::Path) => "PATH",
        Some(Kind::Reference) => "REFERENCE",
        Some(Kind::WeakReference) => "WEAKREFERENCE",
        Some(Kind::Uri) => "URI",
    }
}

// The text of a value, in quotes.
fn put_value(alloc: Global, out: &mut Text, value: &Value) -> Result<(), AllocError>
    ensures { OnOk result (out.new ≡ out.old ++ quoted (value_text value.now)) }
{
    match value {
        Value::Str(text) => put_quoted(out, text.as_str()),
        Value::Binary(bytes) => put_binary(alloc, out, bytes),
        Value::Long(number) => put_number(alloc, out, *number),
        Value::Date(time) => put_number(alloc, out, *time),
        Value::Boolean(truth) => put_quoted(out, if *truth { "true" } else { "false" }),
        Value::Name(name) => put_quoted(out, name.as_str()),
        Value::Path(path) => put_quoted(out, path.text()?.as_str()),
        Value::Reference(id) => put_identifier(alloc, out, *id),
        Value::WeakReference(id) => put_identifier(alloc, out, *id),
        Value::Uri(text) => put_quoted(out, text.as_str()),
    }
}

fn put_binary(alloc: Global, out: &mut Text, bytes: &List<u8>) -> Result<(), AllocError>
    ensures { OnOk result (out.new ≡ out.old ++ quoted (value_text (Value.Binary bytes.now))) }
{
    let text = STANDARD.encode(alloc, bytes.as_slice())?;
    put_quoted(out, text.as_str())
}

fn put_number(alloc: Global, out: &mut Text, number: i64) -> Result<(), AllocError>
    ensures { OnOk result (out.new ≡ out.old ++ quoted (signed_decimal number)) }
{
    let text = number.to_string(alloc)?;
    put_quoted(out, text.as_str())
}

fn put_identifier(alloc: Global, out: &mut Text, id: u128) -> Result<(), AllocError>
    ensures { OnOk result (out.new ≡ out.old ++ quoted (identifier_text id)) }
{
    let text = identifier_text(alloc, id)?;
    put_quoted(out, text.as_str())
}

// Values in quotes with commas between.
fn put_values(alloc: Global, out: &mut Text, values: &[Value]) -> Result<(), AllocError>
    ensures { OnOk result (out.new ≡ out.old ++ with_commas (default_texts values.now)) }
{
    match values {
        [] => Ok(()),
        [first, more @ ..] => {
            put_value(alloc, out, first)?;
            put_more_values(alloc, out, more)
        }
    }
}

fn put_more_values(alloc: Global, out: &mut Text, values: &[Value]) -> Result<(), AllocError>
    ensures { OnOk result (out.new ≡ out.old ++ continued (default_texts values.now)) }
{
    for value in values {
        put_one_more_value(alloc, out, value)?;
    }
    Ok(())
}

fn put_one_more_value(alloc: Global, out: &mut Text, value: &Value) -> Result<(), AllocError>
    ensures { OnOk result (out.new ≡ out.old ++ (codes ", " ++ quoted (value_text value.now))) }
{
    out.push_str(", ")?;
    put_value(alloc, out, value)
}

// The defaults of a property behind ` = `, or nothing.
fn put_defaults(alloc: Global, out: &mut Text, values: &[Value]) -> Result<(), AllocError>
    ensures { OnOk result
        (out.new ≡ out.old ++ list_behind (codes " = ") (default_texts values.now)) }
{
    if values.is_empty() {
        return Ok(());
    }
    out.push_str(" = ")?;
    put_values(alloc, out, values)
}

// The constraints of a property behind ` < `, or nothing.
fn put_constraints(out: &mut Text, texts: &[Text]) -> Result<(), AllocError>
    ensures { OnOk result (out.new ≡ out.old ++ list_behind (codes " < ") (map quoted texts.now)) }
{
    if texts.is_empty() {
        return Ok(());
    }
    out.push_str(" < ")?;
    put_texts(out, texts)
}

fn put_item_name(out: &mut Text, name: &Option<Name>) -> Result<(), AllocError>
    ensures { OnOk result (out.new ≡ out.old ++ item_name_text name.now) }
{
    match name {
        Some(name) => put_name(out, name),
        None => out.push_str("*"),
    }
}

// What a check-in of the parent does, where it isn't COPY.
fn put_opv(out: &mut Text, opv: OnParentVersion) -> Result<(), AllocError>
    ensures { OnOk result (out.new ≡ out.old ++ opv_part opv) }
{
    match opv {
        OnParentVersion::Copy => Ok(()),
        OnParentVersion::Version => out.push_str(" VERSION"),
        OnParentVersion::Initialize => out.push_str(" INITIALIZE"),
        OnParentVersion::Compute => out.push_str(" COMPUTE"),
        OnParentVersion::Ignore => out.push_str(" IGNORE"),
        OnParentVersion::Abort => out.push_str(" ABORT"),
    }
}

// - name (KIND)
fn put_prop_head(out: &mut Text, prop: &PropDef) -> Result<(), AllocError>
    ensures { OnOk result (out.new ≡ out.old ++ prop_head prop.now) }
{
    out.push_str("- ")?;
    put_item_name(out, &prop.name)?;
    out.push_str(" (")?;
    out.push_str(kind_word(prop.kind))?;
    out.push_str(")")
}

fn put_prop_attributes(out: &mut Text, prop: &PropDef) -> Result<(), AllocError>
    ensures { OnOk result (out.new ≡ out.old ++ prop_attributes prop.now) }
{
    put_if(out, prop.mandatory, " mandatory")?;
    put_if(out, prop.autocreated, " autocreated")?;
    put_if(out, prop.protected, " protected")?;
    put_if(out, prop.multiple, " multiple")?;
    put_opv(out, prop.opv)
}

// - name (KIND) = defaults attributes < constraints
fn put_prop(alloc: Global, out: &mut Text, prop: &PropDef) -> Result<(), AllocError>
    ensures { OnOk result (out.new ≡ out.old ++ prop_text prop.now) }
{
    put_prop_head(out, prop)?;
    put_defaults(alloc, out, prop.defaults.as_slice())?;
    put_prop_attributes(out, prop)?;
    put_constraints(out, prop.constraints.as_slice())?;
    out.push_str("\n")
}

// + name (types)
fn put_child_head(out: &mut Text, child: &ChildDef) -> Result<(), AllocError>
    ensures { OnOk result (out.new ≡ out.old ++ child_head child.now) }
{
    out.push_str("+ ")?;
    put_item_name(out, &child.name)?;
    out.push_str(" (")?;
    put_names(out, child.types.as_slice())?;
    out.push_str(")")
}

fn put_child_attributes(out: &mut Text, child: &ChildDef) -> Result<(), AllocError>
    ensures { OnOk result (out.new ≡ out.old ++ child_attributes child.now) }
{
    put_if(out, child.mandatory, " mandatory")?;
    put_if(out, child.autocreated, " autocreated")?;
    put_if(out, child.protected, " protected")?;
    put_opv(out, child.opv)
}

// + name (types) = default attributes
fn put_child(out: &mut Text, child: &ChildDef) -> Result<(), AllocError>
    ensures { OnOk result (out.new ≡ out.old ++ child_text child.now) }
{
    put_child_head(out, child)?;
    put_name_behind(out, " = ", &child.default_type)?;
    put_child_attributes(out, child)?;
    out.push_str("\n")
}

// ---- types and prefixes

// [name] > supertypes
fn put_type_head(out: &mut Text, definition: &TypeDef) -> Result<(), AllocError>
    ensures { OnOk result (out.new ≡ out.old ++ type_head definition.now) }
{
    out.push_str("[")?;
    put_name(out, &definition.name)?;
    out.push_str("]")?;
    put_supertypes(out, definition.supertypes.as_slice())
}

fn put_supertypes(out: &mut Text, names: &[Name]) -> Result<(), AllocError>
    ensures { OnOk result
        (out.new ≡ out.old ++ list_behind (codes " > ") (map name_text names.now)) }
{
    if names.is_empty() {
        return Ok(());
    }
    out.push_str(" > ")?;
    put_names(out, names)
}

fn put_type_attributes(out: &mut Text, definition: &TypeDef) -> Result<(), AllocError>
    ensures { OnOk result (out.new ≡ out.old ++ type_attributes definition.now) }
{
    put_if(out, definition.mixin, " mixin")?;
    put_if(out, definition.is_abstract, " abstract")?;
    put_if(out, definition.orderable, " orderable")?;
    put_name_behind(out, " primaryitem ", &definition.primary_item)
}

fn put_type_line(out: &mut Text, definition: &TypeDef) -> Result<(), AllocError>
    ensures { OnOk result (out.new ≡ out.old ++ type_line definition.now) }
{
    put_type_head(out, definition)?;
    put_type_attributes(out, definition)?;
    out.push_str("\n")
}

fn put_props(alloc: Global, out: &mut Text, props: &[PropDef]) -> Result<(), AllocError>
    ensures { OnOk result (out.new ≡ out.old ++ flat_map prop_text props.now) }
{
    for prop in props {
        put_prop(alloc, out, prop)?;
    }
    Ok(())
}

fn put_children(out: &mut Text, children: &[ChildDef]) -> Result<(), AllocError>
    ensures { OnOk result (out.new ≡ out.old ++ flat_map child_text children.now) }
{
    for child in children {
        put_child(out, child)?;
    }
    Ok(())
}

// A type's line, its properties' and its children's.
fn put_type(alloc: Global, out: &mut Text, definition: &TypeDef) -> Result<(), AllocError>
    ensures { OnOk result (out.new ≡ out.old ++ type_text definition.now) }
{
    put_type_line(out, definition)?;
    put_props(alloc, out, definition.props.as_slice())?;
    put_children(out, definition.children.as_slice())
}

// <prefix = 'uri'>
fn put_prefix(out: &mut Text, prefix: &Prefix) -> Result<(), AllocError>
    ensures { OnOk result (out.new ≡ out.old ++ prefix_text prefix.now) }
{
    out.push_str("<")?;
    out.push_str(prefix.prefix.as_str())?;
    out.push_str(" = ")?;
    put_quoted(out, prefix.uri.as_str())?;
    out.push_str(">\n")
}

fn put_prefixes(out: &mut Text, prefixes: &[Prefix]) -> Result<(), AllocError>
    ensures { OnOk result (out.new ≡ out.old ++ flat_map prefix_text prefixes.now) }
{
    for prefix in prefixes {
        put_prefix(out, prefix)?;
    }
    Ok(())
}

fn put_types(alloc: Global, out: &mut Text, types: &[TypeDef]) -> Result<(), AllocError>
    ensures { OnOk result (out.new ≡ out.old ++ flat_map type_text types.now) }
{
    for definition in types {
        put_type(alloc, out, definition)?;
    }
    Ok(())
}

/// The canonical text of prefixes and node types (JSR 283, 25.2 Compact Node Type Definition Notation): the prefixes first, then
/// the types, one line for each prefix, type, property and child, as docs/FORMATS.md has it.
pub fn print_cnd(alloc: Global, cnd: &Cnd) -> Result<String, AllocError>
    ensures { IfOk result (λ text. string_bytes text ≡ cnd_text cnd.now) }
{
    let mut out = Text::new(alloc);
    put_prefixes(&mut out, cnd.prefixes.as_slice())?;
    put_types(alloc, &mut out, cnd.definitions.as_slice())?;
    Ok(out.into_inner())
}
