ghost use Rattle.std.specs.Prelude.{◌≡◌, ◌<◌, ◌^◌, ℕ, List, Some, IfOk, IfSome, string_bytes};

use std::alloc::{AllocError, Global};

/// A place among the pieces that a site accepted: behind so many of those of one run.
#[derive(Clone, Copy, Debug, PartialEq, Eq)]
pub struct PieceCursor {
    /// A number that is of this run alone.
    pub run: u64,
    pub count: u64,
}

impl PieceCursor {
    ghost use Rattle.cue_journal.specs.Cursors.{cursor_text, IsCursor};

    /// The run and the count in decimal digits, with `-` between them.
    pub fn text(self, alloc: Global) -> Result<String, AllocError>
        ensures { IfOk result (λ text. string_bytes text ≡ cursor_text self.run self.count) }
    {
        format!(in alloc; "{}-{}", self.run, self.count)
    }

    /// The cursor that a text tells.
    pub fn read(text: &str) -> Option<PieceCursor>
        ensures some { IfSome result (λ cursor. IsCursor text.now cursor.run cursor.count) }
        ensures written { (cursor : PieceCursor) → cursor.run < 2 ^ 64 → cursor.count < 2 ^ 64
            → text.now ≡ cursor_text cursor.run cursor.count → result ≡ Some cursor }
    {
        let (run, count) = text.split_once('-')?;
        let run = run.parse::<u64>().ok()?;
        let count = count.parse::<u64>().ok()?;
        Some(PieceCursor { run, count })
    }
}
