// A copy that shares nothing with its source.
ghost use Rattle.std.specs.Prelude.{◌≡◌, IfOk};

use std::alloc::AllocError;

/// A copy that shares nothing with its source and equals it. Only want of memory refuses it.
pub trait DeepCopy {
    fn copy(&self) -> Result<Self, AllocError>
        ensures { IfOk result (λ copy. copy ≡ self.now) };
}

impl DeepCopy for () {
    fn copy(&self) -> Result<(), AllocError> {
        Ok(())
    }
}

impl DeepCopy for bool {
    fn copy(&self) -> Result<bool, AllocError> {
        Ok(*self)
    }
}

impl DeepCopy for u8 {
    fn copy(&self) -> Result<u8, AllocError> {
        Ok(*self)
    }
}

impl DeepCopy for u32 {
    fn copy(&self) -> Result<u32, AllocError> {
        Ok(*self)
    }
}

impl DeepCopy for u64 {
    fn copy(&self) -> Result<u64, AllocError> {
        Ok(*self)
    }
}

impl<T: DeepCopy> DeepCopy for Option<T> {
    fn copy(&self) -> Result<Option<T>, AllocError> {
        match self {
            Some(value) => Ok(Some(value.copy()?)),
            None => Ok(None),
        }
    }
}

impl<A: DeepCopy + Drop, B: DeepCopy> DeepCopy for (A, B) {
    fn copy(&self) -> Result<(A, B), AllocError> {
        Ok((self.0.copy()?, self.1.copy()?))
    }
}

impl<A: DeepCopy + Drop, B: DeepCopy + Drop, C: DeepCopy> DeepCopy for (A, B, C) {
    fn copy(&self) -> Result<(A, B, C), AllocError> {
        Ok((self.0.copy()?, self.1.copy()?, self.2.copy()?))
    }
}
