ghost use Rattle.std.specs.Prelude.{◌≡◌, ◌+◌, ◌*◌, ◌≤◌, ◌⊎◌, ◌↔◌, [], Bool, true, false, None, IfOk, IfSome, IsTrue};
ghost use Rattle.std.specs.Duration.{as_nanos};
ghost use Rattle.std.specs.Time.{instant_nanos, FitsClock};
ghost use Rattle.cue_rounds.specs.Feeds.{AsksFor, PullsAs, subject_of};
ghost use Rattle.cue_rounds.specs.Standing.{Changes};

use crate::event_loop::Bounds;
use crate::failure::SourceFailure;
use crate::peer::is_due;
use crate::question::{Course, SourceAnswer, SourceQuestion, Subject, Wanted, write_question};
use crate::rounds::{Gathers, News};
use crate::runtime::{Runtime, SourceStream};
use crate::source::PullSource;
use cue_journal::PieceCursor;
use http::HeaderValue;
use std::alloc::Global;
use std::time::{Duration, Instant};

/// A source that fails is asked again after so many seconds at most.
const MOST_PAUSE: u64 = 60;

/// A source that has no layers is asked for them again after so many seconds, or after its pause
/// where that is longer.
const LAYERLESS_PAUSE: u64 = 60;

/// What a source is asked for again and again.
#[derive(Clone, Copy, Debug, PartialEq, Eq)]
pub(crate) enum Feed {
    /// The pieces that it accepted since, or its state.
    Commons,
    /// The layers bytes of its map.
    Layers,
}

/// A source that is asked now and then for one feed, on a connection of its own.
#[derive(Drop)]
pub(crate) struct Asked<L> {
    number: usize,
    pub(crate) feed: Feed,
    /// The tag of the answer that was taken last. Where there is none, the commons are asked with
    /// the site's own.
    tag: Vec<u8>,
    /// The place up to which its pieces were taken. Where there is none it is asked for its state.
    cursor: Option<PieceCursor>,
    next: Instant,
    pause: Duration,
    /// Why it failed when it was asked last, if it did.
    failure: Option<SourceFailure>,
    /// It refuses questions that wait for news.
    impatient: bool,
    /// Its last answer had news.
    moved: bool,
    question: Option<SourceQuestion<L>>,
}

/// What came of a question.
#[derive(Clone, Copy, Debug, PartialEq, Eq)]
pub(crate) enum AskOutcome {
    Taken,
    /// The pieces that were asked for are not to be had: the state has to be asked for.
    Gone,
    /// Its pieces could not be taken: the state has to be asked for, later.
    Spoilt,
    /// The source has no layers.
    Layerless,
    /// It refuses a question that waits: it has to be asked without.
    Impatient,
    Failed(SourceFailure),
}

impl AskOutcome {
    /// That of pieces which were taken or not.
    fn of_pieces(taken: bool) -> AskOutcome
        ensures { result ≡ AskOutcome.Taken → taken ≡ true }
    {
        match taken {
            true => AskOutcome::Taken,
            false => AskOutcome::Spoilt,
        }
    }

    /// That of a state or of layers bytes, which were taken or refused for this.
    fn of_whole(taken: bool, refused: SourceFailure) -> AskOutcome
        ensures { result ≡ AskOutcome.Taken → taken ≡ true }
    {
        match taken {
            true => AskOutcome::Taken,
            false => AskOutcome::Failed(refused),
        }
    }
}

impl<L: SourceStream + Drop> Asked<L> {
    pub(crate) fn new(
        alloc: Global,
        number: usize,
        feed: Feed,
        next: Instant,
        pause: Duration,
    ) -> Asked<L>
        ensures { result.feed ≡ feed }
    {
        Asked {
            number,
            feed,
            tag: Vec::new(alloc),
            cursor: None,
            next,
            pause,
            failure: None,
            impatient: false,
            moved: false,
            question: None,
        }
    }

    /// What is asked for: layers, or what `next_wanted` says of the commons.
    fn wanted<'a>(&'a self, own: &'a Option<HeaderValue>) -> Wanted<'a>
        ensures { AsksFor self.now.feed (subject_of result) }
    {
        match self.feed {
            Feed::Commons => self.next_wanted(own),
            Feed::Layers => Wanted::Layers(&self.tag),
        }
    }

    /// What is asked of the commons: the pieces behind the place that is remembered, or the state,
    /// unless it is the one that was taken last, or the site's own.
    fn next_wanted<'a>(&'a self, own: &'a Option<HeaderValue>) -> Wanted<'a>
        ensures cursor { IfSome self.now.cursor (λ cursor. result ≡ Wanted.Pieces cursor) }
        ensures commons { AsksFor Feed.Commons (subject_of result) }
    {
        match (self.cursor, own) {
            (Some(cursor), _) => Wanted::Pieces(cursor),
            (None, Some(own)) => Wanted::State(own.as_bytes()),
            (None, None) => Wanted::State(&self.tag),
        }
    }

    /// Whether it is to be asked at this moment.
    pub(crate) fn is_next(&self, now: Instant) -> bool
        ensures { IsTrue result ↔ ((self.now.question ≡ None) × (instant_nanos self.now.next ≤ instant_nanos now)) }
    {
        self.question.is_none() && is_due(now, self.next)
    }

    /// Whether nobody was reached when it was asked last.
    pub(crate) fn is_unreachable(&self) -> bool {
        self.failure == Some(SourceFailure::Unreachable)
    }

    /// How many seconds it is to hold its answer back while it has no news: half of what an answer may
    /// take. One that failed, or that refuses to wait, is asked at once, and so is one of which
    /// nothing is remembered that news could be behind.
    fn patience(&self, bounds: &Bounds) -> Option<u64>
        ensures least { IfSome result (λ seconds. 1 ≤ seconds) }
        ensures most { IfSome result (λ seconds. (seconds ≡ 1) ⊎ (2 * seconds * 1_000_000_000 ≤ as_nanos bounds.now.idle)) }
        ensures well { IfSome result (λ _. (self.now.impatient ≡ false) × (self.now.failure ≡ None)) }
    {
        let known = match self.feed {
            Feed::Commons => self.cursor.is_some(),
            Feed::Layers => !self.tag.is_empty(),
        };
        if !known || self.impatient || self.failure.is_some() {
            return None;
        }
        Some(half_of(bounds.idle))
    }

    /// How long it is left alone behind an answer that was taken: not at all where that had news and
    /// the next question waits for more.
    fn pause_behind_answer(&self, bounds: &Bounds) -> Duration
        ensures { (self.now.moved ≡ true) ⊎ (result ≡ bounds.now.every) }
    {
        if self.moved && self.patience(bounds).is_some() {
            Duration::ZERO
        } else {
            bounds.every
        }
    }

    /// Whether something of its answers is remembered.
    fn has_answer(&self) -> bool {
        !self.tag.is_empty() || self.cursor.is_some()
    }

    /// Forgets what it answered, so that it is asked from the start.
    fn forget(&mut self)
        ensures tag { self.new.tag.items ≡ [] }
        ensures cursor { self.new.cursor ≡ None }
        ensures feed { self.new.feed ≡ self.old.feed }
    {
        self.tag.clear();
        self.cursor = None;
    }

    /// Takes what an answer brings.
    fn take<S: Gathers>(&mut self, question: &SourceQuestion<L>, service: &mut S) -> AskOutcome
        ensures changes { Changes S.pulls_state S.pulls_pieces S.pulls_layers S.rests service.old service.new }
        // What came goes to the pull that it was asked for. Where it was taken, that took it.
        ensures gives { (service.new ≡ service.old) ⊎ ((taken : Bool)
            × PullsAs S.pulls_state S.pulls_pieces S.pulls_layers question.now.subject
            service.old question.now.body.bytes.items taken service.new
            × (result ≡ AskOutcome.Taken → taken ≡ true)) }
        // A place is remembered only where what came with it was taken.
        ensures cursor { (self.new.cursor ≡ self.old.cursor) ⊎ (self.new.cursor ≡ None) ⊎ (result ≡ AskOutcome.Taken) }
        // So is a tag.
        ensures tag { (self.new.tag ≡ self.old.tag) ⊎ (result ≡ AskOutcome.Taken) }
        ensures feed { self.new.feed ≡ self.old.feed }
    {
        match give(question, service) {
            AskOutcome::Taken => {
                self.remember(question);
                AskOutcome::Taken
            }
            AskOutcome::Spoilt => {
                self.cursor = None;
                AskOutcome::Spoilt
            }
            outcome => outcome,
        }
    }

    /// Remembers the tag and the place that an answer named, whose content was taken, and whether it
    /// had news.
    fn remember(&mut self, question: &SourceQuestion<L>)
        ensures feed { self.new.feed ≡ self.old.feed }
    {
        self.moved = false;
        match question.subject() {
            Subject::State => {
                remember(&mut self.tag, question.tag());
                self.cursor = question.cursor();
            }
            Subject::Pieces if !question.is_same() => {
                let cursor = question.cursor();
                self.moved = cursor != self.cursor && !question.bytes().is_empty();
                self.cursor = cursor;
            }
            Subject::Layers if !question.is_same() => {
                self.moved = question.tag() != self.tag.as_slice();
                remember(&mut self.tag, question.tag());
            }
            _ => {}
        }
    }

    /// Notes that it answered, and is asked again after this pause.
    fn note_answer<S: Gathers>(
        &mut self,
        now: Instant,
        draw: u8,
        bounds: &Bounds,
        pause: Duration,
        service: &mut S,
    )
        ensures next { FitsClock (instant_nanos now + as_nanos pause)
            → 4 * instant_nanos now + 3 * as_nanos pause ≤ 4 * instant_nanos self.new.next }
        ensures feed { self.new.feed ≡ self.old.feed }
        ensures changes { Changes S.pulls_state S.pulls_pieces S.pulls_layers S.rests service.old service.new }
    {
        self.next = add_pause(now, draw_pause(draw, pause));
        self.pause = bounds.every;
        self.failure = None;
        service.note_news(match self.feed {
            Feed::Commons => News::Answered(self.number),
            Feed::Layers => News::LayersAnswered(self.number),
        });
    }

    /// One that fails is asked less often.
    fn note_failure<S: Gathers>(
        &mut self,
        why: SourceFailure,
        now: Instant,
        draw: u8,
        bounds: &Bounds,
        service: &mut S,
    )
        ensures pause { as_nanos bounds.now.every ≤ as_nanos self.new.pause }
        // It is not asked before three quarters of its pause are over.
        ensures next { FitsClock (instant_nanos now + as_nanos self.old.pause)
            → 4 * instant_nanos now + 3 * as_nanos self.old.pause ≤ 4 * instant_nanos self.new.next }
        ensures tag { self.new.tag ≡ self.old.tag }
        ensures cursor { self.new.cursor ≡ self.old.cursor }
        ensures question { self.new.question ≡ self.old.question }
        ensures feed { self.new.feed ≡ self.old.feed }
        ensures changes { Changes S.pulls_state S.pulls_pieces S.pulls_layers S.rests service.old service.new }
    {
        self.next = add_pause(now, draw_pause(draw, self.pause));
        self.pause = lengthen_pause(self.pause, bounds.every);
        self.failure = Some(why);
        self.impatient = false;
        service.note_news(match self.feed {
            Feed::Commons => News::Failed(self.number, why),
            Feed::Layers => News::LayersFailed(self.number, why),
        });
    }
}

/// Gives the service what an answer brings.
fn give<L: SourceStream + Drop, S: Gathers>(
    question: &SourceQuestion<L>,
    service: &mut S,
) -> AskOutcome
    ensures changes { Changes S.pulls_state S.pulls_pieces S.pulls_layers S.rests service.old service.new }
    ensures gives { (service.new ≡ service.old) ⊎ ((taken : Bool)
        × PullsAs S.pulls_state S.pulls_pieces S.pulls_layers question.now.subject
        service.old question.now.body.bytes.items taken service.new
        × (result ≡ AskOutcome.Taken → taken ≡ true)) }
{
    match question.answer() {
        SourceAnswer::Whole => pull(question.subject(), question.bytes(), service),
        SourceAnswer::Same => AskOutcome::Taken,
        SourceAnswer::Gone => AskOutcome::Gone,
        SourceAnswer::Layerless => AskOutcome::Layerless,
        SourceAnswer::Impatient => AskOutcome::Impatient,
        SourceAnswer::Failed(why) => AskOutcome::Failed(why),
    }
}

/// Gives the service these bytes, as what was asked for.
fn pull<S: Gathers>(subject: Subject, bytes: &[u8], service: &mut S) -> AskOutcome
    ensures { (taken : Bool)
        × PullsAs S.pulls_state S.pulls_pieces S.pulls_layers subject service.old bytes.now taken service.new
        × (result ≡ AskOutcome.Taken → taken ≡ true) }
{
    match subject {
        Subject::State => AskOutcome::of_whole(
            service.pull_state(bytes),
            SourceFailure::RefusedState,
        ),
        Subject::Pieces => AskOutcome::of_pieces(service.pull_pieces(bytes)),
        Subject::Layers => AskOutcome::of_whole(
            service.pull_layers(bytes),
            SourceFailure::RefusedLayers,
        ),
    }
}

/// Begins to ask a source, where it is time.
pub(crate) fn begin<R: Runtime, S: Gathers>(
    runtime: &mut R,
    alloc: Global,
    source: &PullSource,
    asked: &mut Asked<R::Source>,
    now: Instant,
    bounds: &Bounds,
    service: &mut S,
)
    ensures pause { ¬ (instant_nanos asked.old.next ≤ instant_nanos now) → asked.new.question ≡ asked.old.question }
    ensures feed { asked.new.feed ≡ asked.old.feed }
    ensures changes { Changes S.pulls_state S.pulls_pieces S.pulls_layers S.rests service.old service.new }
{
    if !asked.is_next(now) {
        return;
    }
    let own = own_tag(asked, service);
    let question = ask(runtime, alloc, source, asked, now, bounds, &own);
    note_question(runtime, asked, question, now, bounds, service);
}

/// The service's own tag, where the commons are asked for and nothing of the source's answers is
/// remembered.
fn own_tag<L: SourceStream + Drop, S: Gathers>(
    asked: &Asked<L>,
    service: &mut S,
) -> Option<HeaderValue>
    ensures { Changes S.pulls_state S.pulls_pieces S.pulls_layers S.rests service.old service.new }
{
    if asked.feed == Feed::Layers || asked.has_answer() {
        return None;
    }
    service.tag()
}

/// Notes that a source was asked, or why not.
fn note_question<R: Runtime, S: Gathers>(
    runtime: &mut R,
    asked: &mut Asked<R::Source>,
    question: Result<SourceQuestion<R::Source>, SourceFailure>,
    now: Instant,
    bounds: &Bounds,
    service: &mut S,
)
    ensures feed { asked.new.feed ≡ asked.old.feed }
    ensures changes { Changes S.pulls_state S.pulls_pieces S.pulls_layers S.rests service.old service.new }
{
    match question {
        Ok(question) => asked.question = Some(question),
        Err(SourceFailure::Unaskable) if asked.has_answer() => {
            asked.forget();
            service.note_news(News::Forgotten(asked.number));
        }
        Err(why) => asked.note_failure(why, now, runtime.draw(), bounds, service),
    }
}

/// Asks a source. Its answer has `Bounds::idle`, and what it is to wait for news.
fn ask<R: Runtime>(
    runtime: &mut R,
    alloc: Global,
    source: &PullSource,
    asked: &Asked<R::Source>,
    now: Instant,
    bounds: &Bounds,
    own: &Option<HeaderValue>,
) -> Result<SourceQuestion<R::Source>, SourceFailure>
    ensures { IfOk result (λ question. AsksFor asked.now.feed question.subject) }
{
    let wanted = asked.wanted(own);
    let subject = wanted.subject();
    let Some(at) = source.at else {
        return Err(SourceFailure::NoAddress);
    };
    let wait = asked.patience(bounds);
    let until = add_pause(
        add_pause(now, bounds.idle),
        Duration::from_secs(wait.unwrap_or(0)),
    );
    let (client, question) = write_question(alloc, source, wanted, wait)?;
    match runtime.connect(asked.number, at) {
        Ok(stream) => {
            let begun = SourceQuestion::begin(
                alloc, stream, client, question, subject, wait, until,
            )?;
            Ok(begun)
        }
        Err(_) => Err(SourceFailure::Unreachable),
    }
}

/// Goes on with the question to a source, and takes what the answer brings.
pub(crate) fn step<R: Runtime, S: Gathers>(
    runtime: &mut R,
    asked: &mut Asked<R::Source>,
    now: Instant,
    bounds: &Bounds,
    service: &mut S,
)
    ensures feed { asked.new.feed ≡ asked.old.feed }
    ensures changes { Changes S.pulls_state S.pulls_pieces S.pulls_layers S.rests service.old service.new }
{
    let Some(mut question) = asked.question.take() else {
        return;
    };
    question.step(now);
    if question.course() == Course::Waiting {
        asked.question = Some(question);
        return;
    }
    let outcome = asked.take(&question, service);
    note_outcome(runtime, asked, outcome, now, bounds, service);
}

/// Notes what came of a question, and when the source is asked again.
fn note_outcome<R: Runtime, S: Gathers>(
    runtime: &mut R,
    asked: &mut Asked<R::Source>,
    outcome: AskOutcome,
    now: Instant,
    bounds: &Bounds,
    service: &mut S,
)
    ensures feed { asked.new.feed ≡ asked.old.feed }
    ensures changes { Changes S.pulls_state S.pulls_pieces S.pulls_layers S.rests service.old service.new }
{
    match outcome {
        AskOutcome::Taken => {
            let pause = asked.pause_behind_answer(bounds);
            asked.note_answer(now, runtime.draw(), bounds, pause, service);
        }
        AskOutcome::Gone => {
            asked.forget();
            asked.next = now;
        }
        AskOutcome::Impatient => {
            asked.impatient = true;
            asked.next = now;
        }
        AskOutcome::Layerless => {
            asked.forget();
            let long = bounds.every.max(Duration::from_secs(LAYERLESS_PAUSE));
            asked.note_answer(now, runtime.draw(), bounds, long, service);
        }
        AskOutcome::Spoilt => {
            let why = SourceFailure::RefusedPieces;
            asked.note_failure(why, now, runtime.draw(), bounds, service);
        }
        AskOutcome::Failed(why) => {
            asked.note_failure(why, now, runtime.draw(), bounds, service);
        }
    }
}

/// The pause behind a further failure: twice as long, up to a bound, and never shorter than that
/// behind an answer.
fn lengthen_pause(pause: Duration, every: Duration) -> Duration
    ensures least { as_nanos every ≤ as_nanos result }
    ensures most { (result ≡ every) ⊎ (as_nanos result ≤ 60_000_000_000) }
{
    let twice = pause.saturating_mul(2).min(Duration::from_secs(MOST_PAUSE));
    if twice < every { every } else { twice }
}

/// Half of it in whole seconds, and one at least.
fn half_of(time: Duration) -> u64
    ensures least { 1 ≤ result }
    ensures most { (result ≡ 1) ⊎ (2 * result * 1_000_000_000 ≤ as_nanos time) }
{
    (time.as_secs() / 2).max(1)
}

/// Remembers these bytes, or none where memory is wanting: then the question asks for more than it
/// had to.
fn remember(place: &mut Vec<u8>, bytes: &[u8]) {
    place.clear();
    if place.extend_from_slice(bytes).is_err() {
        place.clear();
    }
}

/// This moment, or the one so much later.
pub(crate) fn add_pause(now: Instant, pause: Duration) -> Instant
    ensures { FitsClock (instant_nanos now + as_nanos pause)
        → instant_nanos result ≡ instant_nanos now + as_nanos pause }
{
    now.checked_add(pause).unwrap_or(now)
}

/// The pause, or up to a quarter less by a random byte, so that sites do not ask all at once.
fn draw_pause(draw: u8, pause: Duration) -> Duration
    ensures most { as_nanos result ≤ as_nanos pause }
    ensures least { 3 * as_nanos pause ≤ 4 * as_nanos result }
{
    pause.saturating_sub(part_of(pause, draw))
}

/// A quarter of the pause at most.
fn part_of(pause: Duration, draw: u8) -> Duration
    ensures { 4 * as_nanos result ≤ as_nanos pause }
{
    (pause / 1024).saturating_mul(u32::from(draw))
}
