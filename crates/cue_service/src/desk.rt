ghost use Rattle.std.specs.Prelude.{◌≡◌, ◌⊎◌, ◌<◌, ◌^◌, ◌++◌, ◌↔◌, [], ◌∷◌, ℕ, List, length, codes, IsTrue, IfOk, IfErr, IfSome, IfNone, OnOk, OnErr};
ghost use Rattle.cue_journal.specs.Blocks.{recovered_pieces};
ghost use Rattle.cue_journal.specs.Settled.{IsBatch};
ghost use Rattle.cue_journal.specs.Batches.{batch_bytes};
ghost use Rattle.cue_service.specs.Editions.{IsEdition};
ghost use Rattle.cue_service.specs.Inner.Admissions.{IsAdmittedOrKnown};
ghost use Rattle.cue_service.specs.Entries.{entry_of};
ghost use Rattle.cue_service.specs.Listing.{with_entry};
ghost use Rattle.http_server.specs.Response.{IsBlank};
ghost use Rattle.cue_lattice.specs.World.{state};
ghost use Rattle.cue_service.specs.Pulls.{CoversPiece};
ghost use Rattle.cue_service.specs.Refusals.{IsLeftOut, IsRefusalOf};
ghost use Rattle.cue_service.specs.Requests.{IsRoute, HasEncodedBody, piece_of_bytes};
ghost use Rattle.cue_service.specs.Statuses.{status_of_answer, type_of_answer};
ghost use Rattle.cue_service.specs.Tags.{tag_of};
ghost use Rattle.cue_service.specs.Answering.{AnswersRequest, AnswersAs, IsAsked, IsHandedToSite, IsPieceTaken, IsTagKnown, IsSame, IsSpared, LeavesUnanswered, GathersState, BringsState};

use crate::access::may_write;
use crate::admission::Admission;
use crate::board::CachedTable;
use crate::conditions::has_tag;
use crate::editions::Editions;
use crate::entries::submit_piece;
use crate::listed::{answer_pieces, name_with_state};
use crate::page::page;
use crate::refusal::{answer_no_room, answer_not_given, answer_over_limit, answer_refusal};
use crate::responses::{answer_body, answer_field, answer_status, answer_tagged, answer_unchanged};
use crate::route::{PieceKind, Route, route_of};
use crate::rules::SiteRules;
use crate::standing::Standing;
use bytes::Bytes;
use cue_journal::{Batch, BlockError, Pieces};
use cue_lattice::{Kind, Memory, Refusal};
use cue_replica::{Replica, SiteQuestion, Status};
use http::{HeaderValue, Request, StatusCode, header};
use http_server::Response;
use std::alloc::Global;
use std::io;

/// A site's table, the entries that wait to reach the disk, the pieces that it accepted since its
/// start, and who may write.
#[derive(Drop)]
pub struct SiteCore {
    pub(crate) alloc: Global,
    pub(crate) board: CachedTable,
    pub(crate) batch: Batch,
    pub(crate) pieces: Pieces,
    pub(crate) rules: SiteRules,
    pub(crate) standing: Standing,
    pub(crate) editions: Editions,
}

/// The first byte of an entry.
fn mark(hand: PieceKind) -> u8
    ensures { (bytes : List ℕ) → entry_of (piece_of_bytes hand bytes) ≡ result ∷ bytes }
{
    match hand {
        PieceKind::Text => 0,
        PieceKind::State => 1,
    }
}

/// Has a piece wait for the disk, and lists it.
///
/// # Errors
///
/// `TooLong` for one of 4 GiB, and `Memory`. Nothing changes.
pub(crate) fn queue(
    batch: &mut Batch,
    pieces: &mut Pieces,
    hand: PieceKind,
    bytes: &[u8],
) -> Result<(), Refusal>
    ensures waits { OnOk result (IsBatch (batch_bytes batch.old) → IsBatch (batch_bytes batch.new)
        × (recovered_pieces (batch_bytes batch.new)
        ≡ recovered_pieces (batch_bytes batch.old) ++ entry_of (piece_of_bytes hand bytes.now) ∷ [])) }
    ensures fits { OnOk result (length bytes.now < 2 ^ 32) }
    ensures appends { OnOk result ((more : List ℕ)
        × (batch_bytes batch.new ≡ batch_bytes batch.old ++ more)) }
    ensures listed { OnOk result (pieces.new ≡ with_entry pieces.old
        (entry_of (piece_of_bytes hand bytes.now))) }
    ensures left_out { IfErr result (IsLeftOut (piece_of_bytes hand bytes.now)) }
    ensures err { OnErr result (batch_bytes batch.new ≡ batch_bytes batch.old) }
    ensures unlisted { OnErr result (pieces.new ≡ pieces.old) }
{
    let waiting = batch.len();
    match batch.push(mark(hand), bytes) {
        Ok(()) => {}
        Err(BlockError::TooLong) => return Err(Refusal::at(Kind::TooLong, 0)),
        Err(BlockError::OutOfMemory(error)) => return Err(Refusal::from(Memory::from(error))),
    }
    if let Err(error) = pieces.add(mark(hand), bytes) {
        batch.cut(waiting);
        return Err(Refusal::from(Memory::from(error)));
    }
    Ok(())
}

impl SiteCore {
    /// One that accepted nothing in this run, whose number no other run has.
    pub fn new(
        alloc: Global,
        board: Replica,
        rules: SiteRules,
        standing: Standing,
        run: u64,
    ) -> SiteCore
        ensures board { result.board ≡ board }
        ensures pieces { result.pieces ≡ record { run = run; given_up = 0; kept = [] } }
        ensures empty { batch_bytes result.batch ≡ [] }
        ensures rules { result.rules ≡ rules }
    {
        SiteCore {
            alloc,
            board: CachedTable::new(alloc, board),
            batch: Batch::new(alloc),
            pieces: Pieces::new(alloc, run),
            rules,
            standing,
            editions: Editions::new(),
        }
    }

    /// Answers a request. `full` says why the disk has no room for a piece. Where memory is wanting
    /// the answer is 507, and nothing changes.
    pub(crate) fn answer(
        &mut self,
        full: Option<io::Error>,
        request: &Request<Bytes>,
        response: &mut Response,
    )
        requires { IsBlank response.old }
        ensures { AnswersRequest self.old request.now response.new self.new }
    {
        let route = route_of(request);
        if let Ok(()) = self.answer_as(route, full, request, response) {
            return;
        }
        response.clear();
        answer_status(response, StatusCode::INSUFFICIENT_STORAGE);
        self.standing.refuse(Kind::Memory, 0);
    }

    fn answer_as(
        &mut self,
        route: Route,
        full: Option<io::Error>,
        request: &Request<Bytes>,
        response: &mut Response,
    ) -> Result<(), Memory>
        requires { IsBlank response.old }
        ensures ok { OnOk result (AnswersAs route self.old request.now response.new self.new) }
        ensures err { OnErr result (LeavesUnanswered route self.old self.new) }
    {
        match route {
            Route::Ask(question) => {
                answer_question(
                    &mut self.board,
                    self.rules.limit,
                    question,
                    request,
                    response,
                )?;
                self.standing
                    .note_sizes(self.board.sizes(), self.rules.limit);
                name_with_state(self.alloc, question, &self.pieces, response)
            }
            Route::Pieces => {
                answer_pieces(self.alloc, &self.pieces, request, response)?;
                self.standing.note_pieces_sent(response.status);
                Ok(())
            }
            Route::Take(hand) => self.accept_request(hand, full, request, response),
            Route::Health => {
                answer_body(
                    response,
                    StatusCode::OK,
                    PLAIN_TEXT,
                    Bytes::from_static(b"up\n"),
                )
            }
            Route::Metrics => {
                let text = self
                    .standing
                    .metrics(self.alloc, &mut self.board, self.rules.limit)?;
                let body = Bytes::from_string(text)?;
                answer_body(response, StatusCode::OK, "text/plain; version=0.0.4", body)
            }
            Route::Page => {
                let text = page(
                    self.alloc,
                    &mut self.board,
                    self.rules.limit,
                    &self.standing,
                )?;
                let body = Bytes::from_string(text)?;
                answer_body(response, StatusCode::OK, "text/html; charset=utf-8", body)
            }
            Route::OtherMethod => {
                let status = StatusCode::METHOD_NOT_ALLOWED;
                answer_field(response, status, header::ALLOW, "GET, HEAD, POST")
            }
            Route::Unknown => {
                answer_status(response, StatusCode::NOT_FOUND);
                Ok(())
            }
        }
    }

    /// The number that goes with the tag of the table. Where memory is wanting for the tag it stays.
    pub(crate) fn edition(&mut self) -> u64
        ensures same { IsSame self.old self.new }
        ensures edition { IsEdition self.old.editions (tag_of self.old.board) result self.new.editions }
    {
        match self.board.tag() {
            Ok(tag) => self.editions.number_of(tag),
            Err(_) => self.editions.number,
        }
    }

    /// Accepts what a request hands in, or says why not.
    fn accept_request(
        &mut self,
        hand: PieceKind,
        full: Option<io::Error>,
        request: &Request<Bytes>,
        response: &mut Response,
    ) -> Result<(), Memory>
        requires { IsBlank response.old }
        ensures ok { OnOk result (IsHandedToSite hand self.old request.now response.new self.new) }
        ensures err { OnErr result (IsSpared self.old self.new) }
    {
        if !may_write(&self.rules.token, request) {
            let status = StatusCode::UNAUTHORIZED;
            return answer_field(response, status, header::WWW_AUTHENTICATE, "Bearer");
        }
        if is_encoded(request) {
            let status = StatusCode::UNSUPPORTED_MEDIA_TYPE;
            return answer_field(response, status, header::ACCEPT_ENCODING, "identity");
        }
        if let Some(error) = full {
            self.standing.note_no_room(error);
            return answer_no_room(self.alloc, error, response);
        }
        let bytes = request.body().as_slice();
        match self.take_in(hand, bytes) {
            Ok(Admission::Accepted) => {
                self.standing.note_taken();
                answer_status(response, StatusCode::NO_CONTENT);
                Ok(())
            }
            Ok(Admission::OverLimit(question)) => {
                self.standing.note_over_limit(question);
                answer_over_limit(self.alloc, question, self.rules.limit, response)
            }
            Err(why) => {
                self.standing.refuse(why.kind, why.place);
                answer_refusal(self.alloc, why, bytes, response)
            }
        }
    }

    /// Accepts a piece that is posted, unless it is known. If memory runs out, older pieces are given
    /// up, and it is tried once more.
    ///
    /// # Errors
    ///
    /// Those of the site. Nothing changes but the pieces that are kept.
    fn take_in(&mut self, hand: PieceKind, bytes: &[u8]) -> Result<Admission, Refusal>
        ensures ok { IfOk result (λ admission. IsAdmittedOrKnown IsSpared (piece_of_bytes hand bytes.now) admission self.old self.new) }
        ensures left_out { IfErr result (IsLeftOut (piece_of_bytes hand bytes.now)) }
        ensures err { OnErr result (IsSpared self.old self.new) }
    {
        match self.admit_new(hand, bytes) {
            Err(why) if why.kind == Kind::Memory => {
                self.pieces.halve();
                self.admit(hand, bytes)
            }
            done => done,
        }
    }

    /// Accepts a piece that is posted, unless it is known.
    ///
    /// # Errors
    ///
    /// Those of the site. Nothing changes.
    fn admit_new(&mut self, hand: PieceKind, bytes: &[u8]) -> Result<Admission, Refusal>
        ensures ok { IfOk result (λ admission. IsAdmittedOrKnown IsSame (piece_of_bytes hand bytes.now) admission self.old self.new) }
        ensures left_out { IfErr result (IsLeftOut (piece_of_bytes hand bytes.now)) }
        ensures err { OnErr result (IsSame self.old self.new) }
    {
        if self.contains_piece(hand, bytes)? {
            return Ok(Admission::Accepted);
        }
        self.admit(hand, bytes)
    }

    /// Whether a piece is found among those that were accepted, and brings nothing.
    ///
    /// # Errors
    ///
    /// `Memory`.
    fn contains_piece(&self, hand: PieceKind, bytes: &[u8]) -> Result<bool, Refusal>
        ensures known { IfOk result (λ has. IsTrue has → IsTagKnown (piece_of_bytes hand bytes.now) self.now self.now) }
        ensures left_out { IfErr result (IsLeftOut (piece_of_bytes hand bytes.now)) }
    {
        if !self
            .pieces
            .contains_parts(mark(hand), bytes)
            .map_err(Memory::from)?
        {
            return Ok(false);
        }
        let mut all = self.board.table().copy(self.alloc)?;
        submit_piece(&mut all, hand, bytes)?;
        Ok(all.same(self.board.table()))
    }

    /// Accepts a piece, which then waits to reach the disk.
    ///
    /// # Errors
    ///
    /// Those of the site. Nothing changes.
    pub(crate) fn accept(&mut self, hand: PieceKind, bytes: &[u8]) -> Result<(), Refusal>
        ensures ok { OnOk result (IsPieceTaken (piece_of_bytes hand bytes.now) self.old self.new) }
        ensures left_out { IfErr result (IsLeftOut (piece_of_bytes hand bytes.now)) }
        ensures err { OnErr result (IsSame self.old self.new) }
    {
        let waiting = self.batch.len();
        queue(&mut self.batch, &mut self.pieces, hand, bytes)?;
        match self.board.accept(hand, bytes) {
            Ok(()) => {
                self.pieces.trim();
                Ok(())
            }
            Err(why) => {
                self.batch.cut(waiting);
                self.pieces.take_back();
                Err(why)
            }
        }
    }

    /// Takes the state of another site, unless it brings nothing. Answers whether that went well.
    pub(crate) fn gather(&mut self, bytes: &[u8]) -> bool
        ensures gathers { GathersState bytes.now self.old self.new }
        ensures brings { IsTrue result → CoversPiece self.new.board (state bytes.now) }
    {
        match self.take_over(bytes) {
            Ok(true) => {
                self.standing.note_gathered();
                true
            }
            Ok(false) => true,
            Err(why) => {
                self.standing.refuse(why.kind, why.place);
                false
            }
        }
    }

    /// Takes the state of another site. Answers whether it brings something.
    ///
    /// # Errors
    ///
    /// Those of the site. Nothing changes.
    pub(crate) fn take_over(&mut self, bytes: &[u8]) -> Result<bool, Refusal>
        ensures ok { IfOk result (λ brings. GathersState bytes.now self.old self.new) }
        ensures brings { OnOk result (CoversPiece self.new.board (state bytes.now)) }
        ensures left_out { IfErr result (IsLeftOut (state bytes.now)) }
        ensures err { OnErr result (IsSame self.old self.new) }
    {
        let Some(next) = unify_bytes(self.alloc, self.board.table(), bytes)? else {
            return Ok(false);
        };
        queue(&mut self.batch, &mut self.pieces, PieceKind::State, bytes)?;
        self.board.replace(next);
        self.pieces.trim();
        Ok(true)
    }
}

/// Answers a question, unless the one who asks has the table, or the answer has more bytes than a
/// limit.
pub fn answer_question(
    board: &mut CachedTable,
    limit: usize,
    question: SiteQuestion,
    request: &Request<Bytes>,
    response: &mut Response,
) -> Result<(), Memory>
    requires { IsBlank response.old }
    ensures asked { OnOk result (IsAsked limit question board.old request.now [] response.new) }
    ensures same { board.new ≡ board.old }
{
    let tag = board.tag()?;
    if has_tag(request, tag.as_bytes()) {
        return answer_unchanged(response, tag);
    }
    let Some(told) = board.answer_within(question, limit)? else {
        return answer_not_given(board.alloc(), limit, tag, response);
    };
    let status = status_code(question, told.status);
    let kind = content_type(question, told.status);
    answer_tagged(response, status, tag, kind, told.bytes)
}

/// The site with these state bytes, where they bring something.
fn unify_bytes(alloc: Global, site: &Replica, bytes: &[u8]) -> Result<Option<Replica>, Refusal>
    ensures some { IfOk result (λ found. IfSome found (BringsState bytes.now site.now)) }
    ensures none { IfOk result (λ found. IfNone found (CoversPiece site.now (state bytes.now))) }
    ensures refused { IfErr result (IsRefusalOf (state bytes.now)) }
{
    let mut next = site.copy(alloc)?;
    next.take(bytes)?;
    if next.same(site) {
        return Ok(None);
    }
    Ok(Some(next))
}

const PLAIN_TEXT: &str = "text/plain; charset=utf-8";

/// Whether the body of a request is encoded.
fn is_encoded(request: &Request<Bytes>) -> bool
    ensures { IsTrue result ↔ HasEncodedBody request.now }
{
    match request.headers().get(header::CONTENT_ENCODING) {
        Some(_) => true,
        None => false,
    }
}

fn status_code(question: SiteQuestion, status: Status) -> StatusCode
    ensures { result ≡ status_of_answer question status }
{
    match (question, status) {
        (SiteQuestion::Export, Status::Conflicts) => StatusCode::CONFLICT,
        (SiteQuestion::Export, Status::Incomplete) => StatusCode::UNPROCESSABLE_ENTITY,
        _ => StatusCode::OK,
    }
}

fn content_type(question: SiteQuestion, status: Status) -> HeaderValue
    ensures { result.bytes ≡ type_of_answer question status }
{
    match (question, status) {
        (SiteQuestion::Export, Status::Done) => HeaderValue::from_static("application/json"),
        (SiteQuestion::State, _) => HeaderValue::from_static("application/octet-stream"),
        _ => HeaderValue::from_static(PLAIN_TEXT),
    }
}
