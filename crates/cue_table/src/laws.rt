//! Laws of tables, each on a call that carries it and does nothing.
ghost use Rattle.std.specs.Prelude.{◌≡◌};
ghost use Rattle.cue_lattice.specs.Question.{SameAnswers};
ghost use Rattle.cue_table.specs.Tree.{Tree};
ghost use Rattle.cue_table.specs.Form.{IsTable};
ghost use Rattle.cue_table.specs.Narrower.{MeetsCommute, MeetsAssociate, MeetsRepeat, MeetsNarrow};
ghost use Rattle.cue_table.specs.Narrower.{MeetsAreWidest};
ghost use Rattle.cue_table.specs.Rows.{AreRows, InPlaceOrder};
ghost use Rattle.cue_table.specs.Refuses.{TableRefuses};
ghost use Rattle.cue_table.specs.Slots.{rows_of};

use cue_lattice::Narrow;

/// Tables with equal answers are equal.
pub fn equal_answers<R: Narrow>()
    ensures { (a b : Tree R) → IsTable R.refuses R.is_value a → IsTable R.refuses R.is_value b
        → SameAnswers (TableRefuses R.refuses a) (TableRefuses R.refuses b) → a ≡ b }
{}

/// The list of a table's rows is in the strict order of their places, and has just the rows that
/// are kept at places.
pub fn rows_in_order<R: Narrow>()
    ensures order { (table : Tree R) → IsTable R.refuses R.is_value table → InPlaceOrder table }
    ensures rows { (table : Tree R) → IsTable R.refuses R.is_value table → AreRows table }
{}

/// The list of the rows of a table tells the table.
pub fn equal_rows<R: Narrow>()
    ensures { (a b : Tree R) → IsTable R.refuses R.is_value a → IsTable R.refuses R.is_value b
        → rows_of a ≡ rows_of b → a ≡ b }
{}

/// What `Table::meet` makes is the greatest lower bound: the order of tables, how often each comes
/// and which are met first make no difference, the met table is at least as narrow as both, and it
/// is the widest such table.
pub fn meet_is_greatest_lower_bound<R: Narrow>()
    ensures commutative { MeetsCommute R.refuses R.is_value }
    ensures associative { MeetsAssociate R.refuses R.is_value }
    ensures idempotent { MeetsRepeat R.refuses R.is_value }
    ensures narrow { MeetsNarrow R.refuses }
    ensures widest { MeetsAreWidest R.refuses }
{}
