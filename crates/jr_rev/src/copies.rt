// Copies of revisions, vectors and pins.
use crate::{Pin, RevVec, Revision};
use jr_list::DeepCopy;
use std::alloc::AllocError;

impl DeepCopy for Revision {
    fn copy(&self) -> Result<Revision, AllocError> {
        Ok(*self)
    }
}

impl DeepCopy for RevVec {
    fn copy(&self) -> Result<RevVec, AllocError> {
        Ok(*self)
    }
}

impl DeepCopy for Pin {
    fn copy(&self) -> Result<Pin, AllocError> {
        Ok(*self)
    }
}
