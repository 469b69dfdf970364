ghost use Rattle.std.specs.Prelude.{◌≡◌};

use crate::board::CachedTable;
use crate::kept::KeptAnswer;
use cue_lattice::Memory;
use cue_replica::{SiteQuestion, Status};

/// What is counted of a table.
#[derive(Clone, Copy)]
pub(crate) struct TableCounts {
    pub(crate) conflicts: u64,
    pub(crate) gaps: u64,
    pub(crate) rows: u64,
    pub(crate) bytes: u64,
}

impl TableCounts {
    /// What is counted of the table that a board holds. Of answers that are over a limit nothing is.
    pub(crate) fn of(board: &mut CachedTable, limit: usize) -> Result<TableCounts, Memory>
        ensures same { board.new ≡ board.old }
    {
        let export = board.answer_within(SiteQuestion::Export, limit)?;
        let report = board.answer_within(SiteQuestion::Report, limit)?;
        let state = board.answer_within(SiteQuestion::State, limit)?;
        let conflicts = match &export {
            Some(told) if told.status == Status::Conflicts => lines(told.bytes.as_slice()),
            _ => 0,
        };
        Ok(TableCounts {
            conflicts,
            gaps: lines(bytes_of(&report)).saturating_sub(conflicts),
            rows: rows_in(bytes_of(&state)),
            bytes: bytes_of(&state).len() as u64,
        })
    }
}

fn bytes_of(told: &Option<KeptAnswer>) -> &[u8] {
    match told {
        Some(told) => told.bytes.as_slice(),
        None => &[],
    }
}

fn lines(bytes: &[u8]) -> u64 {
    let mut count = 0u64;
    for byte in bytes {
        if *byte == b'\n' {
            count = count.saturating_add(1);
        }
    }
    count
}

/// How many rows state bytes say that they have: behind the mark and the version.
fn rows_in(state: &[u8]) -> u64 {
    match state {
        [_, _, _, _, _, a, b, c, d, e, f, g, h, ..] => {
            u64::from_be_bytes([*a, *b, *c, *d, *e, *f, *g, *h])
        }
        _ => 0,
    }
}
