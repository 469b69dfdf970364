use crate::{Conflict, Gap};

/// What an export of a table comes to.
#[derive(Debug, Drop)]
pub enum Export {
    /// The document as JSON (RFC 8259), without any space and with the members of an object in the
    /// order of the bytes of their names.
    Json(String),
    /// There are conflicts.
    Conflicts(Vec<Conflict>),
    /// There is no conflict, but not everything is a single value.
    Incomplete(Vec<Gap>),
}

/// What an export of a table comes to, where its text is told elsewhere.
#[derive(Clone, Copy, Debug, PartialEq, Eq)]
pub enum ExportKind {
    /// The document as JSON, as [`Export`] has it.
    Json,
    /// A line for each conflict, as [`crate::lines`] writes them.
    Conflicts,
    /// There is no conflict, and a line for each gap.
    Incomplete,
}
