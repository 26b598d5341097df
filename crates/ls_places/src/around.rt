//! Where an equation stands.

ghost use Rattle.std.specs.Prelude.{◌≡◌, IfOk};
ghost use Rattle.ls_places.specs.Places as spec;

use crate::places::Frame;
use ls_base::{List, NoMemory, NoteCopy};
use std::alloc::Global;

/// Where an equation stands.
#[derive(Debug, Drop)]
pub struct Where {
    /// What is around it, outermost first.
    pub place: List<Frame>,
    /// What is around its outermost block within the list of equations that binds its names, if
    /// a block is there.
    pub block: Option<List<Frame>>,
    /// The arms between that list and the equation.
    pub inner: List<(u32, u32)>,
}

impl NoteCopy for Frame {
    fn copy(&self, _alloc: Global) -> Result<Frame, NoMemory> {
        Ok(*self)
    }
}

/// The arms among what is around a place.
pub fn arms(alloc: Global, place: &[Frame]) -> Result<List<(u32, u32)>, NoMemory>
    ensures { IfOk result (λ r. r ≡ spec.arms place.now) }
{
    let mut done = List::new(alloc);
    for frame in place {
        match frame {
            Frame::Reset(_) => {}
            Frame::Arm(m, j) => done.push((*m, *j))?,
        }
    }
    Ok(done)
}

/// The place where nothing is around.
pub fn at_top(alloc: Global) -> Where
    ensures { result ≡ spec.at_top }
{
    Where {
        place: List::new(alloc),
        block: None,
        inner: List::new(alloc),
    }
}

impl Where {
    /// The place of what binds a name in its list: the equation or the block.
    pub fn spot(&self) -> &List<Frame>
        ensures { result.now ≡ spec.spot self.now }
    {
        match &self.block {
            None => &self.place,
            Some(place) => place,
        }
    }

    /// In the `reset` of this number.
    pub fn in_reset(&self, alloc: Global, r: u32) -> Result<Where, NoMemory>
        ensures { IfOk result (λ w. w ≡ spec.in_reset r self.now) }
    {
        let mut place = self.place.copy(alloc)?;
        place.push(Frame::Reset(r))?;
        Ok(Where {
            place,
            block: self.block.copy(alloc)?,
            inner: self.inner.copy(alloc)?,
        })
    }

    /// In the `do` of an arm, which binds names of the list around the block.
    pub fn in_do(&self, alloc: Global, m: u32, j: u32) -> Result<Where, NoMemory>
        ensures { IfOk result (λ w. w ≡ spec.in_do m j self.now) }
    {
        let mut place = self.place.copy(alloc)?;
        place.push(Frame::Arm(m, j))?;
        let mut inner = self.inner.copy(alloc)?;
        inner.push((m, j))?;
        Ok(Where {
            place,
            block: Some(self.spot().copy(alloc)?),
            inner,
        })
    }

    /// In the `let` of an arm, whose names are local to the arm.
    pub fn in_let(&self, alloc: Global, m: u32, j: u32) -> Result<Where, NoMemory>
        ensures { IfOk result (λ w. w ≡ spec.in_let m j self.now) }
    {
        let mut place = self.place.copy(alloc)?;
        place.push(Frame::Arm(m, j))?;
        Ok(Where {
            place,
            block: None,
            inner: List::new(alloc),
        })
    }
}
