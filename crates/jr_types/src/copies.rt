// Copies of definitions.
ghost use Rattle.std.specs.Prelude.{◌≡◌, IfOk};

use crate::{ChildDef, OnParentVersion, PropDef, TypeDef};
use jr_path::{DeepCopy, List, Name, Text};
use jr_value::{Kind, Value};
use std::alloc::AllocError;

impl DeepCopy for OnParentVersion {
    fn copy(&self) -> Result<OnParentVersion, AllocError> {
        Ok(*self)
    }
}

impl DeepCopy for PropDef {
    fn copy(&self) -> Result<PropDef, AllocError> {
        let name = self.name.copy()?;
        let (defaults, constraints) = both(&self.defaults, &self.constraints)?;
        Ok(PropDef {
            name,
            kind: self.kind,
            mandatory: self.mandatory,
            autocreated: self.autocreated,
            protected: self.protected,
            multiple: self.multiple,
            defaults,
            constraints,
            opv: self.opv,
        })
    }
}

impl DeepCopy for ChildDef {
    fn copy(&self) -> Result<ChildDef, AllocError> {
        let name = self.name.copy()?;
        let (types, default_type) = both(&self.types, &self.default_type)?;
        Ok(ChildDef {
            name,
            types,
            default_type,
            mandatory: self.mandatory,
            autocreated: self.autocreated,
            protected: self.protected,
            opv: self.opv,
        })
    }
}

impl DeepCopy for TypeDef {
    fn copy(&self) -> Result<TypeDef, AllocError> {
        let ((name, supertypes), primary_item) = (
            both(&self.name, &self.supertypes)?,
            self.primary_item.copy()?,
        );
        let (props, children) = both(&self.props, &self.children)?;
        Ok(TypeDef {
            name,
            supertypes,
            is_abstract: self.is_abstract,
            mixin: self.mixin,
            orderable: self.orderable,
            primary_item,
            props,
            children,
        })
    }
}

// Copies of two values.
pub(crate) fn both<A: DeepCopy + Drop, B: DeepCopy>(a: &A, b: &B) -> Result<(A, B), AllocError>
    ensures { IfOk result (λ copies. copies ≡ (a.now, b.now)) }
{
    Ok((a.copy()?, b.copy()?))
}
