// The ten kinds of values, values and properties.
ghost use Rattle.std.specs.Prelude.{◌≡◌};
ghost use Rattle.jr_value.specs.Values.{kind_of, kind_of_property};

use jr_path::{List, Name, Path, Text};

/// The kind of a value, a property type of JSR 283, 3.6.1, in the order of its numbers there: STRING 1,
/// BINARY 2, LONG 3, DATE 5, BOOLEAN 6, NAME 7, PATH 8, REFERENCE 9, WEAKREFERENCE 10, URI 11.
#[derive(Clone, Copy, Debug, PartialEq, Eq, PartialOrd, Ord)]
pub enum Kind {
    Str,
    Binary,
    Long,
    Date,
    Boolean,
    Name,
    Path,
    Reference,
    WeakReference,
    Uri,
}

/// The ten kinds, in their order.
pub const ALL_KINDS: [Kind; 10] = [
    Kind::Str,
    Kind::Binary,
    Kind::Long,
    Kind::Date,
    Kind::Boolean,
    Kind::Name,
    Kind::Path,
    Kind::Reference,
    Kind::WeakReference,
    Kind::Uri,
];

/// A value of one of the ten kinds. A DATE is in whole milliseconds, a REFERENCE or WEAKREFERENCE the
/// 128-bit number of an identifier.
pub enum Value {
    Str(Text),
    Binary(List<u8>),
    Long(i64),
    Date(i64),
    Boolean(bool),
    Name(Name),
    Path(Path),
    Reference(u128),
    WeakReference(u128),
    Uri(Text),
}

// By hand, so that its parts are let go in one call.
impl Drop for Value {
    fn drop(self) {
        match self {
            Value::Str(text) => drop(text),
            Value::Binary(items) => drop(items),
            Value::Long(_) => {}
            Value::Date(_) => {}
            Value::Boolean(_) => {}
            Value::Name(name) => drop(name),
            Value::Path(path) => drop(path),
            Value::Reference(_) => {}
            Value::WeakReference(_) => {}
            Value::Uri(text) => drop(text),
        }
    }
}

/// The value of a property: one value, or any number of values of one kind.
#[derive(Drop)]
pub enum Property {
    Single(Value),
    Many(Kind, List<Value>),
}

impl Value {
    pub fn kind(&self) -> Kind
        ensures { result ≡ kind_of self.now }
    {
        match self {
            Value::Str(_) => Kind::Str,
            Value::Binary(_) => Kind::Binary,
            Value::Long(_) => Kind::Long,
            Value::Date(_) => Kind::Date,
            Value::Boolean(_) => Kind::Boolean,
            Value::Name(_) => Kind::Name,
            Value::Path(_) => Kind::Path,
            Value::Reference(_) => Kind::Reference,
            Value::WeakReference(_) => Kind::WeakReference,
            Value::Uri(_) => Kind::Uri,
        }
    }
}

impl Property {
    pub fn kind(&self) -> Kind
        ensures { result ≡ kind_of_property self.now }
    {
        match self {
            Property::Single(value) => value.kind(),
            Property::Many(kind, _) => *kind,
        }
    }
}
