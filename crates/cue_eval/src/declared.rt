use cue_lattice::{Memory, Narrow, Narrowed, Text};
use cue_sets::TextSet;
use std::alloc::Global;

/// What the struct literals at a place can be asked.
#[derive(Debug, Drop)]
pub enum DeclaredQuestion {
    /// Does one stand there?
    Stands,
    /// Does one declare this label? One with `...` declares each.
    Declares(Text),
}

/// What the struct literals at a place declare together.
#[derive(Debug, Drop)]
pub struct Declared {
    /// Whether one stands there.
    pub stands: bool,
    /// The labels that none of them declares.
    pub undeclared: TextSet,
}

/// Unification unites: what one side tells is told. So "to refuse" a question is here to say yes to
/// it.
impl Narrow for Declared {
    ghost use Rattle.cue_eval.specs.Telling.{DeclaredRefuses, IsDeclaredLabel};
    ghost use Rattle.cue_eval.specs.TellingLaws.{same_declared};

    type Question = DeclaredQuestion;

    ghost refuses = { DeclaredRefuses };

    ghost is_value = { IsDeclaredLabel };

    ghost exact = { same_declared };

    fn free(alloc: Global) -> Result<Declared, Memory> {
        Ok(Declared {
            stands: false,
            undeclared: TextSet::free(alloc)?,
        })
    }

    fn is_free(&self) -> bool {
        !self.stands && self.undeclared.is_free()
    }

    fn meet(&self, alloc: Global, other: &Declared) -> Result<Declared, Memory> {
        Ok(Declared {
            stands: self.stands || other.stands,
            undeclared: Narrow::meet(&self.undeclared, alloc, &other.undeclared)?,
        })
    }

    fn narrowed_by(&self, alloc: Global, other: Declared) -> Result<Narrowed<Declared>, Memory> {
        let Declared { stands, undeclared } = other;
        let undeclared = self.undeclared.narrowed_by(alloc, undeclared)?;
        let stays = self.stands || !stands;
        if stays && undeclared.is_unchanged() {
            return Ok(Narrowed::Unchanged);
        }
        Ok(Narrowed::To(Declared {
            stands: self.stands || stands,
            undeclared: undeclared.or_copy(alloc, &self.undeclared)?,
        }))
    }

    fn same(&self, other: &Declared) -> bool {
        self.stands == other.stands && self.undeclared.same(&other.undeclared)
    }

    fn copy(&self, alloc: Global) -> Result<Declared, Memory> {
        Ok(Declared {
            stands: self.stands,
            undeclared: self.undeclared.copy(alloc)?,
        })
    }

    fn known(&self) {
        self.undeclared.known();
    }
}
