ghost use Rattle.std.specs.Prelude.{◌≡◌, false, true, [], ◌∷◌, ◌++◌, drop, length, string_bytes};
ghost use Rattle.std.specs.Prelude.{IfOk, OnOk, OnErr};
ghost use Rattle.std.specs.Fmt.{signed_decimal};
ghost use Rattle.std.specs.Str.{IsCharBoundary};
ghost use Rattle.json.specs.Print.{ends, print_from, token_text, IsPrintable};
ghost use Rattle.json.specs.Reads.{token_of};
ghost use Rattle.json.specs.Token.{number};
ghost use Rattle.cue_report.specs.Stream.{WritesTokensPrefix, WritesTokens, flow_of, opener};

use cue_device::TextSink;
use cue_lattice::Memory;
use json::{Token, Writer};
use std::alloc::Global;
use std::marker::Model;
use std::mem;

/// About so many bytes are put at once.
const PART: usize = 4096;

/// About so many bytes stand round each token.
const AROUND: usize = 4;

/// JSON that is told to a sink token by token. What is written is pending until it is long enough,
/// and then put as one piece. Contracts see what is pending and whether a value ended there.
#[derive(Drop)]
pub(crate) struct Stream {
    alloc: Global,
    /// What is pending, behind a token that is not told, so that the writer places the next comma.
    writer: Writer,
    /// Whether that token is a value.
    primed: bool,
    /// Whether the last token ended a value.
    owes: bool,
    /// About how many bytes are pending.
    weight: usize,
}

impl Model for Stream {
    ghost use Rattle.cue_report.specs.Stream.{PendingText, streamed_code};

    ghost Value = { PendingText };

    ghost coded = { streamed_code };

    ghost use Rattle.cue_report.specs.Stream.{stream_view, IsStream};

    ghost view = { stream_view };

    ghost invariant = { IsStream };
}

impl Stream {
    /// A stream of which nothing is pending.
    pub fn new(alloc: Global) -> Result<Stream, Memory>
        ensures pending { IfOk result (λ stream. stream.pending ≡ []) }
        ensures owes { IfOk result (λ stream. stream.owes ≡ false) }
    {
        let writer = open_writer(alloc, false)?;
        Ok(Stream {
            alloc,
            writer,
            primed: false,
            owes: false,
            weight: 0,
        })
    }

    /// Tells a token.
    ///
    /// # Errors
    ///
    /// Where no more is taken; then nothing of the token was.
    pub fn token<S: TextSink>(&mut self, out: &mut S, token: Token<'_>) -> Result<(), S::SinkError>
        requires { IsPrintable (token_of token) }
        ensures told { OnOk result (WritesTokens (flow_of (S.taken out.old) self.old)
            (flow_of (S.taken out.new) self.new) (token_of token.entry ∷ [])) }
        ensures begun { OnErr result
            (WritesTokensPrefix (flow_of (S.taken out.old) self.old) (S.taken out.new) []) }
    {
        self.make_room(out, token)?;
        self.write(token)?;
        Ok(())
    }

    /// Tells an integer.
    ///
    /// # Errors
    ///
    /// Where no more is taken; then nothing of the integer was.
    pub fn integer<S: TextSink>(&mut self, out: &mut S, integer: i64) -> Result<(), S::SinkError>
        ensures told { OnOk result (WritesTokens (flow_of (S.taken out.old) self.old)
            (flow_of (S.taken out.new) self.new) (number (signed_decimal integer) ∷ [])) }
        ensures begun { OnErr result
            (WritesTokensPrefix (flow_of (S.taken out.old) self.old) (S.taken out.new) []) }
    {
        self.make_room(out, Token::Null)?;
        self.write_integer(integer)?;
        Ok(())
    }

    /// Puts what is pending.
    pub fn drain<S: TextSink>(&mut self, out: &mut S) -> Result<(), S::SinkError>
        ensures told { OnOk result (WritesTokens (flow_of (S.taken out.old) self.old)
            (flow_of (S.taken out.new) self.new) []) }
        ensures begun { OnErr result
            (WritesTokensPrefix (flow_of (S.taken out.old) self.old) (S.taken out.new) []) }
        ensures none { OnOk result (self.new.pending ≡ []) }
    {
        let (text, skipped) = self.take()?;
        out.put(&text.as_str()[skipped..])?;
        Ok(())
    }

    /// Takes what is pending, as what stands in a text behind so many bytes.
    fn take(&mut self) -> Result<(String, usize), Memory>
        ensures text { IfOk result (λ taken.
            drop taken.1 (string_bytes taken.0) ≡ self.old.pending) }
        ensures boundary { IfOk result (λ taken. IsCharBoundary (string_bytes taken.0) taken.1) }
        ensures none { OnOk result (self.new.pending ≡ []) }
        ensures owes { self.new.owes ≡ self.old.owes }
        ensures err { OnErr result (self.new ≡ self.old) }
    {
        let empty = open_writer(self.alloc, self.owes)?;
        let skipped = opener_len(self.primed);
        let full = mem::replace(&mut self.writer, empty);
        self.primed = self.owes;
        self.weight = 0;
        // What the writer holds is a text.
        let text = String::from_utf8(full.into_inner()).unwrap();
        Ok((text, skipped))
    }

    /// Writes a token.
    fn write(&mut self, token: Token<'_>) -> Result<(), Memory>
        requires { IsPrintable (token_of token) }
        ensures pending { OnOk result (self.new.pending
            ≡ self.old.pending ++ print_from self.old.owes (token_of token.entry ∷ [])) }
        ensures owes { OnOk result (self.new.owes ≡ ends (token_of token.entry)) }
        ensures err { OnErr result (self.new ≡ self.old) }
    {
        self.writer.token(token)?;
        self.owes = ends_value(token);
        Ok(())
    }

    /// Writes an integer.
    fn write_integer(&mut self, integer: i64) -> Result<(), Memory>
        ensures pending { OnOk result (self.new.pending ≡ self.old.pending
            ++ print_from self.old.owes (number (signed_decimal integer) ∷ [])) }
        ensures owes { OnOk result (self.new.owes ≡ true) }
        ensures err { OnErr result (self.new ≡ self.old) }
    {
        self.writer.i64(integer)?;
        self.owes = true;
        Ok(())
    }

    /// Puts what is pending, where it is long, before a token is written.
    fn make_room<S: TextSink>(&mut self, out: &mut S, token: Token<'_>) -> Result<(), S::SinkError>
        ensures told { OnOk result (WritesTokens (flow_of (S.taken out.old) self.old)
            (flow_of (S.taken out.new) self.new) []) }
        ensures begun { OnErr result
            (WritesTokensPrefix (flow_of (S.taken out.old) self.old) (S.taken out.new) []) }
    {
        if self.weight >= PART {
            self.drain(out)?;
        }
        self.weight = self.weight.saturating_add(weight_of(token));
        Ok(())
    }
}

/// A writer with nothing but a token that is not told: a value, where the next token owes a comma.
fn open_writer(alloc: Global, owes: bool) -> Result<Writer, Memory>
    ensures before { IfOk result (λ writer. writer.before ≡ []) }
    ensures tokens { IfOk result (λ writer. writer.tokens ≡ opener owes ∷ []) }
{
    let mut writer = Writer::new(Vec::new(alloc));
    if owes {
        writer.null()?;
    } else {
        writer.begin_array()?;
    }
    Ok(writer)
}

/// How long the text of that token is.
fn opener_len(primed: bool) -> usize
    ensures { result ≡ length (token_text (opener primed)) }
{
    if primed { 4 } else { 1 }
}

/// Whether a token is the last of a value.
fn ends_value(token: Token<'_>) -> bool
    ensures { result ≡ ends (token_of token.entry) }
{
    match token {
        Token::BeginObject | Token::BeginArray | Token::Key(_) => false,
        _ => true,
    }
}

/// About how many bytes a token takes.
fn weight_of(token: Token<'_>) -> usize {
    let text = match token {
        Token::Key(text) | Token::String(text) => text.len(),
        _ => 0,
    };
    text.saturating_add(AROUND)
}
