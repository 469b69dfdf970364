use crate::refusal::path_of;
use crate::shown::Shown;
use crate::sizes::AnswerSizes;
use cue_lattice::Kind;
use cue_replica::SiteQuestion;
use cue_rounds::{News, SourceFailure};
use http::StatusCode;
use log::{Log, info, warn};
use std::alloc::Global;
use std::io;

/// The greatest number of a kind of refusal.
pub(crate) const MOST_KIND: usize = 25;

/// So many lines wait to be written at most. More are counted alone.
const MOST_NOTES: usize = 64;

/// How it stands with another site.
#[derive(Drop)]
pub struct SourceStanding {
    pub name: String,
    /// When it answered last.
    pub last: Option<u64>,
    pub failures: u64,
    /// The last question failed.
    pub failing: bool,
    /// Why it failed, where it did.
    failure: Option<SourceFailure>,
    /// Why the last question for its layers failed, where it did.
    layers_failure: Option<SourceFailure>,
}

impl SourceStanding {
    /// One that was not asked yet.
    pub fn new(name: String) -> SourceStanding {
        SourceStanding {
            name,
            last: None,
            failures: 0,
            failing: false,
            failure: None,
            layers_failure: None,
        }
    }
}

/// What a line of the log tells of.
#[derive(Clone, Copy)]
enum Note {
    Refused(Kind, u64),
    Failing(usize, SourceFailure),
    Answering(usize),
    LayersFailing(usize, SourceFailure),
    LayersAnswering(usize),
    Forgotten(usize),
    Condensed(usize),
    NoSnapshot(io::Error),
    NoRoom(io::Error),
    Room,
    TooLong(u64),
    OverLimit(SiteQuestion),
    NearLimit(SiteQuestion, u64, Bringer),
}

/// Who brought the last piece.
#[derive(Clone, Copy)]
enum Bringer {
    Files,
    Client,
    Peer,
}

impl Bringer {
    fn name(self) -> &'static str {
        match self {
            Bringer::Files => "the files",
            Bringer::Client => "a POST",
            Bringer::Peer => "a peer",
        }
    }
}

/// Counts of what came, for the answers of the site about itself.
#[derive(Drop)]
pub struct Standing {
    pub(crate) sources: Vec<SourceStanding>,
    pub(crate) now: u64,
    pub(crate) open: usize,
    pub(crate) waiting: usize,
    pub(crate) turned_away: u64,
    pub(crate) taken: u64,
    pub(crate) gathered: u64,
    /// Pieces of other sites that were accepted.
    pub(crate) gathered_pieces: u64,
    /// Questions for pieces that were answered with them, and that were not, since not all are kept.
    pub(crate) told_pieces: u64,
    pub(crate) gone_pieces: u64,
    pub(crate) refused: [u64; MOST_KIND + 1],
    pub(crate) snapshots: u64,
    pub(crate) journal: usize,
    /// Writes that were refused, since the disk had no room.
    pub(crate) without_room: u64,
    /// Pieces refused, since with them an answer would have more bytes than the limit.
    pub(crate) over_limit: u64,
    /// An answer has more than half as many bytes as the limit.
    pub(crate) near_limit: bool,
    brought_by: Bringer,
    /// Why the disk had no room for the last piece, until one is accepted.
    pub(crate) no_room: Option<io::Error>,
    notes: Vec<Note>,
}

impl Standing {
    pub fn new(alloc: Global, sources: Vec<SourceStanding>) -> Standing {
        Standing {
            sources,
            now: 0,
            open: 0,
            waiting: 0,
            turned_away: 0,
            taken: 0,
            gathered: 0,
            gathered_pieces: 0,
            told_pieces: 0,
            gone_pieces: 0,
            refused: [0; MOST_KIND + 1],
            snapshots: 0,
            journal: 0,
            without_room: 0,
            over_limit: 0,
            near_limit: false,
            brought_by: Bringer::Files,
            no_room: None,
            notes: Vec::new(alloc),
        }
    }

    fn note(&mut self, note: Note) {
        if self.notes.len() < MOST_NOTES {
            let _full = self.notes.push(note);
        }
    }

    pub(crate) fn note_taken(&mut self) {
        self.note_room();
        self.brought_by = Bringer::Client;
        self.taken = self.taken.saturating_add(1);
    }

    pub(crate) fn note_gathered(&mut self) {
        self.note_room();
        self.brought_by = Bringer::Peer;
        self.gathered = self.gathered.saturating_add(1);
    }

    pub(crate) fn note_gathered_piece(&mut self) {
        self.note_room();
        self.brought_by = Bringer::Peer;
        self.gathered_pieces = self.gathered_pieces.saturating_add(1);
    }

    pub(crate) fn note_pieces_sent(&mut self, status: StatusCode) {
        match status {
            StatusCode::OK => self.told_pieces = self.told_pieces.saturating_add(1),
            StatusCode::GONE => self.gone_pieces = self.gone_pieces.saturating_add(1),
            _ => {}
        }
    }

    pub(crate) fn refuse(&mut self, kind: Kind, place: u64) {
        let number = kind.number() as usize;
        if number <= MOST_KIND {
            self.refused[number] = self.refused[number].saturating_add(1);
        }
        self.note(Note::Refused(kind, place));
    }

    pub(crate) fn note_condensed(&mut self, bytes: usize) {
        self.snapshots = self.snapshots.saturating_add(1);
        self.note(Note::Condensed(bytes));
    }

    /// A snapshot could not be written.
    pub(crate) fn note_refused_snapshot(&mut self, error: io::Error) {
        self.note(Note::NoSnapshot(error));
    }

    /// The disk had no room for a piece.
    pub(crate) fn note_no_room(&mut self, error: io::Error) {
        self.without_room = self.without_room.saturating_add(1);
        if self.no_room.is_none() {
            self.note(Note::NoRoom(error));
        }
        self.no_room = Some(error);
    }

    /// The disk had room for a piece.
    fn note_room(&mut self) {
        if self.no_room.take().is_some() {
            self.note(Note::Room);
        }
    }

    /// A state has so many bytes, more than an entry of a journal.
    pub(crate) fn too_long(&mut self, size: u64) {
        self.note(Note::TooLong(size));
    }

    /// A piece was refused, since with it the answer to a question would have more bytes than the limit.
    pub(crate) fn note_over_limit(&mut self, question: SiteQuestion) {
        self.over_limit = self.over_limit.saturating_add(1);
        self.note(Note::OverLimit(question));
    }

    /// Notes how long the answers were that were made last.
    pub(crate) fn note_sizes(&mut self, sizes: &AnswerSizes, limit: usize) {
        let (question, size) = sizes.longest();
        let is_near = size > (limit / 2) as u64;
        if is_near && !self.near_limit {
            self.note(Note::NearLimit(question, size, self.brought_by));
        }
        self.near_limit = is_near;
    }

    pub(crate) fn note_grown(&mut self, journal: usize) {
        self.journal = journal;
    }

    pub(crate) fn note_news(&mut self, news: News) {
        match news {
            News::Now(now) => self.now = now,
            News::Connections {
                open,
                waiting,
                turned_away,
            } => {
                self.open = open;
                self.waiting = waiting;
                self.turned_away = turned_away;
            }
            News::Answered(number) => self.note_answered(number),
            News::Failed(number, why) => self.note_failed(number, why),
            News::Forgotten(number) => self.note(Note::Forgotten(number)),
            News::LayersAnswered(number) => self.note_layers_answered(number),
            News::LayersFailed(number, why) => self.note_layers_failed(number, why),
        }
    }

    fn note_answered(&mut self, number: usize) {
        let now = self.now;
        let mut was_failing = false;
        if let Some(source) = self.sources.get_mut(number) {
            was_failing = source.failing || source.last.is_none();
            source.last = Some(now);
            source.failing = false;
            source.failure = None;
        }
        if was_failing {
            self.note(Note::Answering(number));
        }
    }

    fn note_failed(&mut self, number: usize, why: SourceFailure) {
        let mut is_new = false;
        if let Some(source) = self.sources.get_mut(number) {
            is_new = source.failure != Some(why);
            source.failures = source.failures.saturating_add(1);
            source.failing = true;
            source.failure = Some(why);
        }
        if is_new {
            self.note(Note::Failing(number, why));
        }
    }

    fn note_layers_answered(&mut self, number: usize) {
        let mut was_failing = false;
        if let Some(source) = self.sources.get_mut(number) {
            was_failing = source.layers_failure.take().is_some();
        }
        if was_failing {
            self.note(Note::LayersAnswering(number));
        }
    }

    fn note_layers_failed(&mut self, number: usize, why: SourceFailure) {
        let mut is_new = false;
        if let Some(source) = self.sources.get_mut(number) {
            is_new = source.layers_failure != Some(why);
            source.layers_failure = Some(why);
        }
        if is_new {
            self.note(Note::LayersFailing(number, why));
        }
    }

    /// Writes a line for each event since the last call.
    pub(crate) fn report<L: Log>(&mut self, log: &L) {
        for note in &self.notes {
            match note {
                Note::Refused(kind, place) => {
                    warn!(log; "refused {} {} at {}", kind.number(), kind.name(), place)
                }
                Note::Failing(number, why) =>
                    warn!(log; "source {} failed: {}", Shown(self.name_of(*number)), why),
                Note::LayersFailing(number, why) => {
                    warn!(log; "source {}, asked for its layers, failed: {}", Shown(self.name_of(*number)), why)
                }
                Note::LayersAnswering(number) => {
                    info!(log; "source {}, asked for its layers, answers", Shown(self.name_of(*number)))
                }
                Note::Answering(number) =>
                    info!(log; "source {} answers", Shown(self.name_of(*number))),
                Note::Forgotten(number) => {
                    warn!(log; "source {} named a tag that is none, and is asked from the start", Shown(self.name_of(*number)))
                }
                Note::Condensed(bytes) => info!(log; "snapshot of {} bytes", bytes),
                Note::NoSnapshot(error) => {
                    warn!(log; "the snapshot was not written, and the journal grows on: {error}")
                }
                Note::NoRoom(error) => {
                    warn!(log; "no room for pieces, and none is accepted until there is: {error}")
                }
                Note::Room => info!(log; "there is room for pieces again"),
                Note::OverLimit(question) =>
                    warn!(log; "refused a piece with which {} would be over the limit", path_of(*question)),
                Note::NearLimit(question, size, bringer) => {
                    let (path, name) = (path_of(*question), bringer.name());
                    warn!(log; "{path} has {size} bytes, more than half of the limit; the last piece came of {name}")
                }
                Note::TooLong(bytes) => {
                    warn!(log; "no snapshot of a state of {bytes} bytes: an entry has less than 4 GiB")
                }
            }
        }
        self.notes.clear();
    }

    fn name_of(&self, number: usize) -> &str {
        match self.sources.get(number) {
            Some(source) => source.name.as_str(),
            None => "",
        }
    }
}
