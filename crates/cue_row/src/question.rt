ghost use Rattle.std.specs.Prelude.{◌≡◌};
ghost use Rattle.cue_lattice.specs.Question as places;
ghost use Rattle.cue_row.specs.declared.question.Question.{Question as Questions};
ghost use Rattle.cue_row.specs.Questions.{question_of, asked_by_question};

use cue_lattice::{Scalar, Text};

/// What a row can be asked. In contracts a number is a whole number of any size.
#[derive(Debug, Drop)]
pub enum Question {
    /// May this scalar stand?
    MayBe(Scalar),
    /// Is it one of the usual scalars, of which a default is chosen?
    Usual(Scalar),
    /// May a struct stand?
    Struct,
    /// May a list?
    List,
    /// May this label stand directly below?
    Allows(Text),
    /// May the level be this or less? It is asked of 0 and 1.
    LevelAtMost(u8),
    /// May the least length be this or less?
    LengthAtMost(u32),
    /// May the greatest length be this or more?
    LengthAtLeast(u32),
}

/// The questions of rows are just the questions of places: each is asked by one of these, and no
/// two ask the same. It computes nothing: it states a law.
pub fn one_question()
    ensures asked { (question : places.Question) → question_of (asked_by_question question) ≡ question }
    ensures back { (question : Questions) → asked_by_question (question_of question) ≡ question }
{}
