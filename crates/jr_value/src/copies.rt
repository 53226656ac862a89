// Copies of values and properties.
use crate::value::{Kind, Property, Value};
use jr_path::DeepCopy;
use std::alloc::AllocError;

impl DeepCopy for Kind {
    fn copy(&self) -> Result<Kind, AllocError> {
        Ok(*self)
    }
}

impl DeepCopy for Value {
    fn copy(&self) -> Result<Value, AllocError> {
        match self {
            Value::Str(text) => Ok(Value::Str(text.copy()?)),
            Value::Binary(bytes) => Ok(Value::Binary(bytes.copy()?)),
            Value::Long(number) => Ok(Value::Long(*number)),
            Value::Date(time) => Ok(Value::Date(*time)),
            Value::Boolean(truth) => Ok(Value::Boolean(*truth)),
            Value::Name(name) => Ok(Value::Name(name.copy()?)),
            Value::Path(path) => Ok(Value::Path(path.copy()?)),
            Value::Reference(id) => Ok(Value::Reference(*id)),
            Value::WeakReference(id) => Ok(Value::WeakReference(*id)),
            Value::Uri(text) => Ok(Value::Uri(text.copy()?)),
        }
    }
}

impl DeepCopy for Property {
    fn copy(&self) -> Result<Property, AllocError> {
        match self {
            Property::Single(value) => Ok(Property::Single(value.copy()?)),
            Property::Many(kind, values) => Ok(Property::Many(*kind, values.copy()?)),
        }
    }
}
