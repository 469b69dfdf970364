//! Bounds on how long the answers about a table are, from one walk over it.
use cue_lattice::Text;
use cue_replica::Replica;
use cue_row::{Row, Scalars};
use cue_table::{Branch, StepRef};

/// So many places are walked at most. A table with more is taken to have answers of any length.
const MOST_PLACES: u64 = 4_000_000;

/// A walk over so many places takes some milliseconds.
const FEW_PLACES: u64 = 100_000;

/// An index has no more digits, with what stands around it.
const INDEX: u64 = 12;

/// Bounds on the bytes of the answers about a table: of JSON and the canonical text, of the lines of a
/// report, and of the state. Unification adds them, except where one table tells what further elements
/// of lists are and the other one has lists.
#[derive(Clone, Copy)]
pub(crate) struct AnswerBounds {
    pub(crate) text: u64,
    pub(crate) lines: u64,
    pub(crate) state: u64,
    places: u64,
    has_lists: bool,
    has_rests: bool,
}

/// What stands in front of a place in a line, and in the state.
#[derive(Clone, Copy)]
struct PathSize {
    line: u64,
    state: u64,
    /// How often the place stands there: once for each element that is alike.
    times: u64,
}

impl PathSize {
    fn root() -> PathSize {
        PathSize {
            line: 1,
            state: 2,
            times: 1,
        }
    }

    /// The path to so many branches one step below.
    fn then(self, step: StepRef, times: u64) -> PathSize {
        let times = self.times.saturating_mul(times);
        match step {
            StepRef::Label(label) => PathSize {
                line: self.line.saturating_add(text_size(label)),
                state: self
                    .state
                    .saturating_add(3)
                    .saturating_add(label.as_bytes().len() as u64),
                times,
            },
            StepRef::Index(_) => self.then_element(times),
        }
    }

    fn then_element(self, times: u64) -> PathSize {
        PathSize {
            line: self.line.saturating_add(INDEX),
            state: self.state.saturating_add(5),
            times,
        }
    }
}

impl AnswerBounds {
    fn none() -> AnswerBounds {
        AnswerBounds {
            text: 64,
            lines: 0,
            state: 64,
            places: 0,
            has_lists: false,
            has_rests: false,
        }
    }

    /// Bounds on the answers about a site.
    pub(crate) fn of(site: &Replica) -> AnswerBounds {
        let mut bounds = AnswerBounds::none();
        add_branch(&mut bounds, &site.table().root(), PathSize::root(), 4);
        if bounds.places > MOST_PLACES {
            bounds.text = u64::MAX;
            bounds.lines = u64::MAX;
            bounds.state = u64::MAX;
        }
        bounds
    }

    /// Bounds on the answers about the unification of two tables, unless these are more than the sum.
    pub(crate) fn with(&self, other: &AnswerBounds) -> Option<AnswerBounds> {
        if (self.has_rests && other.has_lists) || (self.has_lists && other.has_rests) {
            return None;
        }
        Some(AnswerBounds {
            text: self.text.saturating_add(other.text),
            lines: self.lines.saturating_add(other.lines),
            state: self.state.saturating_add(other.state),
            places: self.places.saturating_add(other.places),
            has_lists: self.has_lists || other.has_lists,
            has_rests: self.has_rests || other.has_rests,
        })
    }

    /// Whether a walk over the table takes some milliseconds at most.
    pub(crate) fn are_few(&self) -> bool {
        self.places <= FEW_PLACES
    }

    /// Whether no answer is longer than a limit.
    pub(crate) fn are_within(&self, limit: u64) -> bool {
        self.text <= limit && self.lines <= limit && self.state <= limit
    }

    /// Adds a place, with its row, at the end of a path, with a label of so many bytes.
    fn add_place(&mut self, row: Option<&Row>, path: PathSize, label: u64) {
        self.places = self.places.saturating_add(1);
        let line = path.line.saturating_mul(2).saturating_add(88);
        self.lines = self.lines.saturating_add(path.times.saturating_mul(line));
        let (text, elements) = match row {
            None => (0, 0),
            Some(row) => (row_size(row), elements_in(row)),
        };
        let own = text
            .saturating_add(label)
            .saturating_add(elements.saturating_mul(5));
        self.text = self.text.saturating_add(path.times.saturating_mul(own));
        let kept = text.saturating_add(path.state);
        self.state = self.state.saturating_add(path.times.saturating_mul(kept));
        let free = elements.saturating_mul(path.line.saturating_add(44).saturating_add(INDEX));
        self.lines = self.lines.saturating_add(path.times.saturating_mul(free));
        self.has_lists |= elements > 0;
    }
}

/// Adds a branch and all below. The recursion is as deep as the branch.
fn add_branch(bounds: &mut AnswerBounds, branch: &Branch<Row>, path: PathSize, label: u64) {
    if bounds.places > MOST_PLACES {
        return;
    }
    bounds.add_place(branch.row(), path, label);
    for (span, below) in branch.spans() {
        let step = span.first();
        let times = u64::from(span.more()).saturating_add(1);
        bounds.has_lists |= matches!(step, StepRef::Index(_));
        add_branch(bounds, &below, path.then(step, times), label_of(step));
    }
    if let Some(rest) = branch.rest() {
        bounds.has_rests = true;
        bounds.has_lists = true;
        let times = further_elements(branch.row(), branch.fixed());
        add_branch(
            bounds,
            &rest,
            path.then_element(path.times.saturating_mul(times)),
            8,
        );
    }
}

/// How many elements are as the rest, which is told once more.
fn further_elements(row: Option<&Row>, fixed: u64) -> u64 {
    match row {
        None => 1,
        Some(row) => u64::from(row.least())
            .saturating_sub(fixed)
            .saturating_add(1),
    }
}

/// What a label takes in front of a value.
fn label_of(step: StepRef) -> u64 {
    match step {
        StepRef::Label(label) => text_size(label).saturating_add(8),
        StepRef::Index(_) => 8,
    }
}

/// How many elements of a list a text may write that no branch has.
fn elements_in(row: &Row) -> u64 {
    match row.most() {
        None => u64::from(row.least()),
        Some(most) => u64::from(row.least()).saturating_add(u64::from(most)),
    }
}

/// What the row of a place takes.
fn row_size(row: &Row) -> u64 {
    let labels = match row.labels() {
        None => 0,
        Some(labels) => texts_size(labels),
    };
    let usual = set_size(row.usual()).saturating_mul(2);
    let scalars = set_size(row.value()).saturating_add(usual);
    labels.saturating_add(scalars).saturating_add(64)
}

fn set_size(set: Scalars) -> u64 {
    let (_, texts) = set.texts();
    let pieces = (set.pieces().len() as u64).saturating_mul(56);
    pieces.saturating_add(texts_size(texts))
}

fn texts_size(texts: &[Text]) -> u64 {
    let mut size = 0u64;
    for text in texts {
        size = size.saturating_add(text_size(text)).saturating_add(12);
    }
    size
}

/// What a text takes between quotation marks, with a mark behind it.
fn text_size(text: &Text) -> u64 {
    let mut size = 3u64;
    for byte in text.as_bytes() {
        let one = match *byte {
            b'"' | b'\\' => 2,
            0..=0x1f | 0x7f => 6,
            _ => 1,
        };
        size = size.saturating_add(one);
    }
    size
}
