use crate::TextSet;
use cue_lattice::Text;

/// What becomes of a set of texts into which another one is unified. It is found out before the set
/// changes, so that the change itself takes no memory.
#[derive(Debug, Drop)]
pub enum TextChange {
    /// The set stays as it is.
    Stay,
    /// The set becomes this one.
    Become(TextSet),
    /// Of the texts that are listed, those stay that this set has.
    Keep(TextSet),
    /// The set, which has all texts but some, lacks these too. All that it lacks then fit into the
    /// room, which is empty.
    Lack { texts: Vec<Text>, room: Vec<Text> },
}
