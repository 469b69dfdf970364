use cue_lattice::Narrowed;
use cue_sets::{IntSet, TextChange};

/// What becomes of a set of scalars into which another one is unified. It is found out before the
/// set changes, so that the change itself takes no memory.
#[derive(Debug, Drop)]
pub struct ScalarChange {
    /// Whether null is a member then.
    pub null: bool,
    /// Whether false is a member then.
    pub no: bool,
    /// Whether true is a member then.
    pub yes: bool,
    pub ints: Narrowed<IntSet>,
    pub texts: TextChange,
}
