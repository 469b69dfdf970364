use crate::{Memory, Narrow, Narrowed};
use std::alloc::Global;

/// A question to one side of a pair.
#[derive(Debug, Drop)]
pub enum Side<A, B> {
    Left(A),
    Right(B),
}

/// Two values side by side. A question goes to one of them.
#[derive(Debug, Drop)]
pub struct Pair<A, B> {
    pub left: A,
    pub right: B,
}

impl<A: Narrow, B: Narrow> Narrow for Pair<A, B> {
    type Question = Side<A::Question, B::Question>;

    ghost use Rattle.cue_lattice.specs.Pair.{pair_refuses};

    ghost refuses = { pair_refuses A.refuses B.refuses };

    ghost is_value = { λ pair. A.is_value pair.left × B.is_value pair.right };

    fn free(alloc: Global) -> Result<Self, Memory> {
        Ok(Pair {
            left: A::free(alloc)?,
            right: B::free(alloc)?,
        })
    }

    fn is_free(&self) -> bool {
        self.left.is_free() && self.right.is_free()
    }

    fn meet(&self, alloc: Global, other: &Self) -> Result<Self, Memory> {
        Ok(Pair {
            left: self.left.meet(alloc, &other.left)?,
            right: self.right.meet(alloc, &other.right)?,
        })
    }

    fn narrowed_by(&self, alloc: Global, other: Self) -> Result<Narrowed<Self>, Memory> {
        let Pair { left, right } = other;
        let left = self.left.narrowed_by(alloc, left)?;
        let right = self.right.narrowed_by(alloc, right)?;
        if left.is_unchanged() && right.is_unchanged() {
            return Ok(Narrowed::Unchanged);
        }
        Ok(Narrowed::To(Pair {
            left: left.or_copy(alloc, &self.left)?,
            right: right.or_copy(alloc, &self.right)?,
        }))
    }

    fn same(&self, other: &Self) -> bool {
        self.left.same(&other.left) && self.right.same(&other.right)
    }

    fn copy(&self, alloc: Global) -> Result<Self, Memory> {
        Ok(Pair {
            left: self.left.copy(alloc)?,
            right: self.right.copy(alloc)?,
        })
    }

    fn known(&self) {
        self.left.known();
        self.right.known();
    }

    ghost use Rattle.cue_lattice.specs.Pair.{pair_exact};

    ghost exact = { pair_exact A.refuses B.refuses A.is_value B.is_value A.exact B.exact };
}
