ghost use Rattle.std.specs.Prelude.{◌≡◌, ◌≢◌, ◌≤◌, ◌*◌, ◌↔◌, IfSome, Some, None, IsTrue};
ghost use Rattle.cue_service.specs.Snapshots.{IsDue};

/// A journal that has fewer bytes behind the last snapshot is not condensed.
const LEAST_JOURNAL: usize = 1024 * 1024;

/// How it stood when a snapshot could not be written.
#[derive(Clone, Copy)]
pub(crate) struct Refused {
    /// How many bytes the journal had that grows.
    pub(crate) grown: usize,
    /// How often the table had changed.
    pub(crate) changes: u64,
}

/// When a snapshot takes the place of the journal that grows.
#[derive(Clone, Copy)]
pub struct Snapshots {
    /// How many bytes the last one has, with which the journal begins.
    pub(crate) size: usize,
    pub(crate) refused: Option<Refused>,
}

impl Snapshots {
    /// A journal that begins with a snapshot of so many bytes.
    pub fn new(size: usize) -> Snapshots {
        Snapshots {
            size,
            refused: None,
        }
    }

    /// Whether one is due: the journal, of so many bytes, has grown by as much as the last snapshot
    /// has, and by a least length; and where one was refused, twice as long as it was then, and the
    /// table is another one.
    pub fn is_due(&self, grown: usize, changes: u64) -> bool
        ensures { IsTrue result ↔ IsDue self.now grown changes }
    {
        grown.saturating_sub(self.size) >= LEAST_JOURNAL.max(self.size)
            && self.may_try(grown, changes)
    }

    /// Whether none was refused, or the journal is twice as long as then, and the table another one.
    fn may_try(&self, grown: usize, changes: u64) -> bool
        ensures { IsTrue result ↔ IfSome self.now.refused
            (λ refused. (2 * refused.grown ≤ grown) × (changes ≢ refused.changes)) }
    {
        match self.refused {
            Some(refused) => refused.grown <= grown / 2 && changes != refused.changes,
            None => true,
        }
    }

    /// One of so many bytes was written.
    pub fn note_written(&mut self, size: usize)
        ensures { self.new ≡ record { size = size; refused = None } }
    {
        self.size = size;
        self.refused = None;
    }

    /// One could not be written, with a journal of so many bytes.
    pub fn refuse(&mut self, grown: usize, changes: u64)
        ensures { self.new ≡ record self.old { refused = Some (record { grown = grown; changes = changes }) } }
    {
        self.refused = Some(Refused { grown, changes });
    }
}
