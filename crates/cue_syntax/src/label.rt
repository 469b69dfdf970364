ghost use Rattle.std.specs.Prelude.{◌≡◌, ◌+◌, ◌⊎◌, ◌↔◌, ◌∷◌, [], IfOk, IfErr, IsTrue};
ghost use Rattle.std.specs.Prelude.{length, flat_map};
ghost use Rattle.cue_syntax.specs.Stops.{IsMemoryParserStop};
ghost use Rattle.cue_syntax.specs.Spelling.{SpellsTree, one, spell_label, spell_mark, label_kind};
ghost use Rattle.cue_syntax.specs.Viability.{IsTokenAt, IsSignAt, BeginsLabel, IsLabelName};
ghost use Rattle.cue_syntax.specs.Viability.{IsKeywordName, RefusesKeyword, MissesColon};
ghost use Rattle.cue_syntax.specs.Recogniser.{value, chains};
ghost use Rattle.cue_syntax.specs.Parsed.{IsFurther, IsOnward, MovesBetween, ParserRefuses};

use crate::cursor::{Parsed, TokenCursor};
use crate::literal::is_keyword;
use crate::memory::push;
use crate::stop::ParserStop;
use crate::tree::{Label, LabelName, Mark};
use cue_lex::{Punctuation, TokenKind};
use std::alloc::Global;

/// The labels of a chain, and the room that they leave.
#[derive(Drop)]
pub struct Chain<'a> {
    pub labels: Vec<Label<'a>>,
    pub room: usize,
    pub after: TokenCursor<'a>,
}

/// Whether a field begins at hand: a plain name or a string, and a mark after it.
pub fn begins_label(cursor: TokenCursor) -> bool
    ensures { IsTrue result ↔ BeginsLabel cursor.entry.rest.now }
{
    match cursor.next() {
        Some((token, after)) => match &token.kind {
            TokenKind::Name(_) | TokenKind::Text(_) => after.is_at_mark(),
            _ => false,
        },
        None => false,
    }
}

/// Refuses a keyword that is no label: after it only a mark could go on.
fn refuse_keyword(cursor: TokenCursor) -> Result<(), ParserStop>
    ensures refused { IfErr result (λ r.
        RefusesKeyword cursor.entry.end cursor.entry.rest.now r) }
    ensures other { IfOk result (λ _. ¬ IsTokenAt IsKeywordName cursor.entry.rest.now) }
{
    let Some((token, after)) = cursor.next() else {
        return Ok(());
    };
    match &token.kind {
        TokenKind::Name(name) => {
            if is_keyword(name) {
                return Err(after.syntax());
            }
            Ok(())
        }
        _ => Ok(()),
    }
}

/// A label with its mark and its colon.
pub fn label<'a>(cursor: TokenCursor<'a>) -> Parsed<'a, Label<'a>>
    requires { BeginsLabel cursor.rest.now }
    ensures further { IfOk result (λ r. IsFurther cursor.entry r.1) }
    ensures spelled { IfOk result (λ r.
        SpellsTree cursor.entry.rest.now (spell_label r.0) r.1.rest.now) }
    ensures refused { IfErr result (λ r. IsMemoryParserStop r
        ⊎ MissesColon cursor.entry.end cursor.entry.rest.now r) }
{
    let (name, after) = label_name(cursor)?;
    let (mark, after) = mark(after);
    let after = after.expect(Punctuation::Colon)?;
    Ok((Label { name, mark }, after))
}

fn label_name<'a>(cursor: TokenCursor<'a>) -> Parsed<'a, LabelName<'a>>
    requires { IsTokenAt IsLabelName cursor.rest.now }
    ensures onward { IfOk result (λ r. IsOnward cursor.entry r.1) }
    ensures spelled { IfOk result (λ r. SpellsTree cursor.entry.rest.now (one (label_kind r.0))
        r.1.rest.now) }
    ensures memory { IfErr result IsMemoryParserStop }
{
    let Some((token, after)) = cursor.next() else {
        return Err(cursor.syntax());
    };
    match &token.kind {
        TokenKind::Name(name) => Ok((LabelName::Plain(name.share()), after)),
        TokenKind::Text(text) => Ok((LabelName::Quoted(text.word()), after)),
        _ => Err(cursor.syntax()),
    }
}

/// The mark before a colon.
fn mark<'a>(cursor: TokenCursor<'a>) -> (Mark, TokenCursor<'a>)
    ensures onward { IsOnward cursor.entry result.1 }
    ensures spelled { SpellsTree cursor.entry.rest.now (spell_mark result.0) result.1.rest.now }
    ensures question { result.0 ≡ Mark.Regular → ¬ IsSignAt (TokenKind.Mark Punctuation.Question)
        cursor.entry.rest.now }
    ensures exclamation { result.0 ≡ Mark.Regular
        → ¬ IsSignAt (TokenKind.Mark Punctuation.Exclamation) cursor.entry.rest.now }
{
    match cursor.next() {
        Some((token, after)) => match &token.kind {
            TokenKind::Mark(Punctuation::Question) => (Mark::Optional, after),
            TokenKind::Mark(Punctuation::Exclamation) => (Mark::Required, after),
            _ => (Mark::Regular, cursor),
        },
        None => (Mark::Regular, cursor),
    }
}

/// The labels between a first label and its value. Each opens a level.
pub fn labels<'a>(
    alloc: Global,
    cursor: TokenCursor<'a>,
    room: usize,
) -> Result<Chain<'a>, ParserStop>
    ensures onward { IfOk result (λ c. IsOnward cursor.entry c.after) }
    ensures levels { IfOk result (λ c. c.room + length c.labels.items ≡ room) }
    ensures spelled { IfOk result (λ c.
        SpellsTree cursor.entry.rest.now (flat_map spell_label c.labels.items) c.after.rest.now) }
    ensures whole { IfOk result (λ c. ¬ BeginsLabel c.after.rest.now) }
    ensures other { IfOk result (λ c. ¬ IsTokenAt IsKeywordName c.after.rest.now) }
    ensures moves { IfOk result (λ c.
        MovesBetween room (value ∷ []) (value ∷ chains c.labels.items) cursor.entry c.after) }
    ensures refused { IfErr result (ParserRefuses room (value ∷ []) cursor.entry) }
{
    let mut labels = Vec::new(alloc);
    let mut left = room;
    let mut rest = cursor;
    'chain: while begins_label(rest) {
        left = rest.open_level(left)?;
        let (label, after) = label(rest)?;
        push(&mut labels, label)?;
        rest = after;
    }
    refuse_keyword(rest)?;
    Ok(Chain {
        labels,
        room: left,
        after: rest,
    })
}
