ghost use Rattle.std.specs.Prelude.{◌≡◌, ◌⊎◌, ◌∷◌, [], IfOk, IfErr, IfSome};
ghost use Rattle.std.specs.Prelude.{MatchResult, IsTrue, ◌↔◌, true, false};
ghost use Rattle.cue_lattice.specs.Limits.{level_limit};
ghost use Rattle.cue_lattice.specs.Refusal.{memory};
ghost use Rattle.cue_lex.specs.Inner.Kinds.{EachHasWord};
ghost use Rattle.cue_syntax.specs.Spelling.{SpellsTree, one, identifier_kind, spell_package};
ghost use Rattle.cue_syntax.specs.Grammar.{at_most, IsFileTree, IsPackageName, HidesDefinition};
ghost use Rattle.cue_syntax.specs.Files.{file_tree};
ghost use Rattle.cue_syntax.specs.Syntax.{FileTree};
ghost use Rattle.cue_syntax.specs.Refusals.{FitsRefusal};
ghost use Rattle.cue_syntax.specs.Viability.{IsTokenAt, IsMark};
ghost use Rattle.cue_syntax.specs.Begun.{MayBeginText};
ghost use Rattle.cue_syntax.specs.Stops.{IsMemoryParserStop};
ghost use Rattle.cue_syntax.specs.Recogniser.{text, package_word, package_end};
ghost use Rattle.cue_syntax.specs.Parsed.{MovesBetween, ParserRefuses, RefusesAlways};
ghost use Rattle.cue_syntax.specs.Recogniser.{entries};

use crate::cursor::{Parsed, TokenCursor};
use crate::expression::declarations;
use crate::form::refusal;
use crate::stop::ParserStop;
use crate::tree::{File, Identifier, Package};
use cue_lattice::{LEVEL_LIMIT, Refusal};
use cue_lex::{Token, TokenKind, Word};
use std::alloc::Global;

/// The tree that the tokens of a text spell, by the grammar of the profile. `end` is the length of
/// the text in bytes.
///
/// # Errors
///
/// `Syntax`, `Nesting` and `LeftOut`, each with the place of a token or `end`, and `Memory`.
pub fn parse<'t>(alloc: Global, tokens: &'t [Token<'t>], end: usize) -> Result<File<'t>, Refusal>
    ensures spelled { IfOk result (λ file.
        IsFileTree (at_most level_limit) tokens.now (file_tree file)) }
    ensures refused { IfErr result (λ r. (r ≡ memory) ⊎ FitsRefusal level_limit end tokens.now r) }
    // Want of memory never hides that a text begins wrongly.
    ensures begins { IfErr result (λ r. r ≡ memory → MayBeginText tokens.now) }
    ensures accepted { (tree : FileTree) → IsFileTree (at_most level_limit) tokens.now tree →
        MatchResult result (λ file. file_tree file ≡ tree) (λ r. r ≡ memory) }
{
    match file(alloc, TokenCursor { rest: tokens, end }) {
        Ok(file) => Ok(file),
        Err(stop) => Err(refusal(tokens, end, stop)),
    }
}

/// A whole text.
fn file(alloc: Global, cursor: TokenCursor) -> Result<File, ParserStop>
    ensures spelled { IfOk result (λ file. IsFileTree (at_most level_limit) cursor.entry.rest.now
        (file_tree file)) }
    ensures refused { IfErr result (ParserRefuses level_limit (text ∷ []) cursor.entry) }
    ensures begins { IfErr result (λ r. IsMemoryParserStop r → MayBeginText cursor.entry.rest.now) }
{
    let (package, rest) = package(cursor)?;
    if rest.is_at_end() {
        return Ok(File {
            package,
            declarations: Vec::new(alloc),
            comma: false,
        });
    }
    each_has_word(rest.rest);
    let (row, rest) = declarations(alloc, rest, true, LEVEL_LIMIT)?;
    if !rest.is_at_end() {
        return Err(rest.syntax());
    }
    Ok(File {
        package,
        declarations: row.items,
        comma: row.comma,
    })
}

/// Says by its contract that what the tokens name and quote are words, as their types promise. It
/// computes nothing.
fn each_has_word(tokens: &[Token])
    ensures { EachHasWord tokens.now }
{
    for token in tokens {
        token.kind.has_word();
    }
}

/// The package clause, where one begins the tokens.
fn package<'a>(cursor: TokenCursor<'a>) -> Parsed<'a, Option<Package<'a>>>
    ensures spelled { IfOk result (λ r. SpellsTree cursor.entry.rest.now (spell_package r.0)
        r.1.rest.now) }
    ensures named { IfOk result (λ r. IfSome r.0 (λ clause. IsPackageName clause.name)) }
    ensures last { IfOk result (λ r. IfSome r.0 (λ clause. clause.comma ≡ false → r.1.rest.now
        ≡ [])) }
    ensures end { IfOk result (λ r. r.1.end ≡ cursor.entry.end) }
    ensures moves { IfOk result (λ r.
        MovesBetween 0 (text ∷ []) (entries true ∷ []) cursor.entry r.1) }
    ensures refused { IfErr result (RefusesAlways (text ∷ []) cursor.entry) }
    ensures begins { MatchResult result
        (λ r. (r.1.rest.now ≡ cursor.entry.rest.now) ⊎ MayBeginText cursor.entry.rest.now)
        (λ r. MayBeginText cursor.entry.rest.now) }
{
    let Some((token, after)) = cursor.next() else {
        return Ok((None, cursor));
    };
    let TokenKind::Name(word) = &token.kind else {
        return Ok((None, cursor));
    };
    if word.as_str() != "package" || after.is_at_mark() {
        return Ok((None, cursor));
    }
    let (name, after) = package_name(after)?;
    let (comma, rest) = after.trailing_comma();
    if !comma && !rest.is_at_end() {
        return Err(rest.syntax());
    }
    Ok((Some(Package { name, comma }), rest))
}

/// The name of a package: an identifier that begins with neither `#` nor `_#`.
fn package_name<'a>(cursor: TokenCursor<'a>) -> Parsed<'a, Identifier<'a>>
    requires { ¬ IsTokenAt IsMark cursor.rest.now }
    ensures spelled { IfOk result (λ r. SpellsTree cursor.entry.rest.now (one (identifier_kind r.0))
        r.1.rest.now) }
    ensures named { IfOk result (λ r. IsPackageName r.0) }
    ensures end { IfOk result (λ r. r.1.end ≡ cursor.entry.end) }
    ensures moves { IfOk result (λ r.
        MovesBetween 0 (package_word ∷ []) (package_end ∷ []) cursor.entry r.1) }
    ensures refused { IfErr result (RefusesAlways (package_word ∷ []) cursor.entry) }
{
    let Some((token, after)) = cursor.next() else {
        return Err(cursor.syntax());
    };
    match &token.kind {
        TokenKind::Name(name) => Ok((Identifier::Plain(name.share()), after)),
        TokenKind::Hidden(name) => {
            if hides_definition(name) {
                return Err(cursor.syntax());
            }
            Ok((Identifier::Hidden(name.share()), after))
        }
        _ => Err(cursor.syntax()),
    }
}

/// Whether a name begins with `_#`.
fn hides_definition(name: &Word) -> bool
    ensures { IsTrue result ↔ HidesDefinition name.now }
{
    let bytes = name.as_bytes();
    bytes.len() > 1 && bytes[0] == b'_' && bytes[1] == b'#'
}
