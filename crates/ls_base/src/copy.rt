ghost use Rattle.std.specs.Prelude.{◌≡◌, IfOk};

use crate::{Boxed, Line, List, Name, NoMemory};
use std::alloc::Global;

/// A value of which a copy can be made where there is memory, as a syntax tree or the note that
/// one of its expressions carries.
pub trait NoteCopy: Drop {
    /// An equal value.
    fn copy(&self, alloc: Global) -> Result<Self, NoMemory>
        ensures { IfOk result (λ r. r ≡ self.now) };
}

impl NoteCopy for () {
    fn copy(&self, _alloc: Global) -> Result<(), NoMemory> {
        Ok(())
    }
}

impl NoteCopy for bool {
    fn copy(&self, _alloc: Global) -> Result<bool, NoMemory> {
        Ok(*self)
    }
}

impl NoteCopy for u8 {
    fn copy(&self, _alloc: Global) -> Result<u8, NoMemory> {
        Ok(*self)
    }
}

impl NoteCopy for u32 {
    fn copy(&self, _alloc: Global) -> Result<u32, NoMemory> {
        Ok(*self)
    }
}

impl NoteCopy for Name {
    fn copy(&self, _alloc: Global) -> Result<Name, NoMemory> {
        Ok(*self)
    }
}

impl NoteCopy for Line {
    fn copy(&self, _alloc: Global) -> Result<Line, NoMemory> {
        Ok(*self)
    }
}

impl<T: NoteCopy> NoteCopy for Option<T> {
    fn copy(&self, alloc: Global) -> Result<Option<T>, NoMemory> {
        match self {
            None => Ok(None),
            Some(it) => Ok(Some(it.copy(alloc)?)),
        }
    }
}

impl<T: NoteCopy> NoteCopy for Boxed<T> {
    fn copy(&self, alloc: Global) -> Result<Boxed<T>, NoMemory> {
        Ok(Boxed::new(alloc, self.get().copy(alloc)?)?)
    }
}

impl<T: NoteCopy> NoteCopy for List<T> {
    fn copy(&self, alloc: Global) -> Result<List<T>, NoMemory> {
        let mut done = List::new(alloc);
        for item in self.as_slice() {
            done.push(item.copy(alloc)?)?;
        }
        Ok(done)
    }
}

impl<A: NoteCopy, B: NoteCopy> NoteCopy for (A, B) {
    fn copy(&self, alloc: Global) -> Result<(A, B), NoMemory> {
        Ok((self.0.copy(alloc)?, self.1.copy(alloc)?))
    }
}
