use cue_lattice::Text;
use cue_policies::LayerKind;
use cue_row::Row;
use cue_table::Table;

/// A layer or a policy: its kind, its name and its table.
#[derive(Drop)]
pub struct LayerSource<'a> {
    pub kind: LayerKind,
    /// The name; that of the commons is empty.
    pub name: Text,
    pub table: &'a Table<Row>,
}
