ghost use Rattle.std.specs.Prelude.{◌≡◌, IfOk};

use crate::no_memory::NoMemory;
use std::alloc::Global;

/// A value that can be copied with an allocator.
///
/// The copy equals the original as contracts see both, which the standard `Clone` does not say of a type parameter.
pub trait Copying: Sized {
    /// A copy of the value. The one error is want of memory.
    fn copy(&self, alloc: Global) -> Result<Self, NoMemory>
        ensures { IfOk result (λ copy. copy ≡ self.now) };
}

impl Copying for u8 {
    fn copy(&self, _alloc: Global) -> Result<u8, NoMemory> {
        Ok(*self)
    }
}

impl Copying for u16 {
    fn copy(&self, _alloc: Global) -> Result<u16, NoMemory> {
        Ok(*self)
    }
}

impl Copying for u32 {
    fn copy(&self, _alloc: Global) -> Result<u32, NoMemory> {
        Ok(*self)
    }
}

impl Copying for u64 {
    fn copy(&self, _alloc: Global) -> Result<u64, NoMemory> {
        Ok(*self)
    }
}

impl Copying for bool {
    fn copy(&self, _alloc: Global) -> Result<bool, NoMemory> {
        Ok(*self)
    }
}

impl<T: Copying> Copying for Option<T> {
    fn copy(&self, alloc: Global) -> Result<Option<T>, NoMemory> {
        match self {
            None => Ok(None),
            Some(value) => Ok(Some(value.copy(alloc)?)),
        }
    }
}

impl<A: Copying + Drop, B: Copying> Copying for (A, B) {
    fn copy(&self, alloc: Global) -> Result<(A, B), NoMemory> {
        let first = self.0.copy(alloc)?;
        let second = self.1.copy(alloc)?;
        Ok((first, second))
    }
}
