use crate::texts::texts::{Made, debugged, joined, long, repeated};
use cue_lattice::Refusal;
use cue_lex::{Quoted, Token, TokenKind, Word, lex};
use std::alloc::Global;
use std::cmp::Ordering;
use std::process::Abort;
use std::test::Fail;

/// The places of a token in a line.
fn places_of(alloc: Global, token: &Token) -> Made<String> {
    Ok(format!(in alloc; " {}..{}\n", token.from, token.to)?)
}

/// Writes a line for a token: its kind and its places.
fn push_token(alloc: Global, all: &mut String, token: &Token) -> Made<()> {
    all.push_str(debugged(alloc, &token.kind)?.as_str())?;
    all.push_str(places_of(alloc, token)?.as_str())?;
    Ok(())
}

/// A line for each token.
fn lines_of(alloc: Global, tokens: &[Token]) -> Made<String> {
    let mut all = String::new(alloc);
    for token in tokens {
        push_token(alloc, &mut all, token)?;
    }
    Ok(all)
}

/// The number and the place of a refusal.
fn words_of(alloc: Global, refusal: Refusal) -> Made<String> {
    Ok(format!(in alloc; "refused {} {}", refusal.kind.number(), refusal.place)?)
}

/// The tokens of a text, each as its kind and its places, or the refusal's number and place.
fn shown(alloc: Global, text: &str) -> Made<String> {
    match lex(alloc, text) {
        Ok(tokens) => lines_of(alloc, &tokens),
        Err(refusal) => words_of(alloc, refusal),
    }
}

/// Asserts what the tokens of a text are.
fn assert_tokens<H: AllocGlobal + Abort>(rt: &H, text: &str, wanted: &str) -> Result<(), Fail> {
    let all = shown(rt.alloc(), text)?;
    assert_eq!(rt; all.as_str(), wanted);
    Ok(())
}

/// How many tokens a text has, or the refusal's number and place.
fn answer(alloc: Global, text: &str) -> (usize, u8, u64) {
    match lex(alloc, text) {
        Ok(tokens) => (tokens.len(), 0, 0),
        Err(refusal) => (0, refusal.kind.number(), refusal.place),
    }
}

fn accepts(rt: &impl Abort, alloc: Global, text: &str, count: usize) {
    assert_eq!(rt; answer(alloc, text), (count, 0, 0), "{text}");
}

fn refuses(rt: &impl Abort, alloc: Global, text: &str, number: u8, place: u64) {
    assert_eq!(rt; answer(alloc, text), (0, number, place), "{text}");
}

/// Asserts how many tokens a text has with what stands after it.
fn accepts_before<H: AllocGlobal + Abort>(
    rt: &H,
    text: &str,
    after: &str,
    count: usize,
) -> Result<(), Fail> {
    let text = joined(rt.alloc(), &[text, after])?;
    accepts(rt, rt.alloc(), text.as_str(), count);
    Ok(())
}

/// Asserts that each of these texts has so many tokens with what stands after it.
fn each_accepts_before<H: AllocGlobal + Abort>(
    rt: &H,
    texts: &[&str],
    after: &str,
    count: usize,
) -> Result<(), Fail> {
    for text in texts {
        accepts_before(rt, text, after, count)?;
    }
    Ok(())
}

/// Asserts that a text has one token.
fn accepts_made<H: AllocGlobal + Abort>(rt: &H, text: Made<String>) -> Result<(), Fail> {
    accepts(rt, rt.alloc(), text?.as_str(), 1);
    Ok(())
}

/// Asserts why a text is refused.
fn refuses_made<H: AllocGlobal + Abort>(
    rt: &H,
    text: Made<String>,
    number: u8,
    place: u64,
) -> Result<(), Fail> {
    refuses(rt, rt.alloc(), text?.as_str(), number, place);
    Ok(())
}

/// Writes a text, and `;` after it.
fn push_text(all: &mut String, text: &str) -> Made<()> {
    all.push_str(text)?;
    all.push(';')?;
    Ok(())
}

/// Writes the text of a name or of a string, and `;` after it.
fn push_spelled(all: &mut String, kind: &TokenKind) -> Made<()> {
    match kind {
        TokenKind::Name(name) | TokenKind::Definition(name) | TokenKind::Hidden(name) => {
            push_text(all, name.as_str())
        }
        TokenKind::Text(text) => push_text(all, text.as_str()),
        _ => Ok(()),
    }
}

/// The texts of the names and strings, each followed by `;`.
fn texts_of(alloc: Global, tokens: &[Token]) -> Made<String> {
    let mut all = String::new(alloc);
    for token in tokens {
        push_spelled(&mut all, &token.kind)?;
    }
    Ok(all)
}

/// The texts of the names and strings of a text, each followed by `;`.
fn texts(alloc: Global, text: &str) -> Made<String> {
    match lex(alloc, text) {
        Ok(tokens) => texts_of(alloc, &tokens),
        Err(_) => Ok(String::new(alloc)),
    }
}

/// Asserts what the names and strings of a text are.
fn assert_texts<H: AllocGlobal + Abort>(rt: &H, text: &str, wanted: &str) -> Result<(), Fail> {
    let all = texts(rt.alloc(), text)?;
    assert_eq!(rt; all.as_str(), wanted);
    Ok(())
}

#[test]
fn line_breaks_insert_commas(rt: HostRuntime) -> Result<(), Fail> {
    assert_tokens(
        &rt,
        "a: 1\nb: 2\n",
        concat!(
            "Name(\"a\") 0..1\nMark(Colon) 1..2\nInteger(1) 3..4\nMark(Comma) 4..4\n",
            "Name(\"b\") 5..6\nMark(Colon) 6..7\nInteger(2) 8..9\nMark(Comma) 9..9\n"
        ),
    )?;
    assert_tokens(
        &rt,
        "l: [1\n2] // end\n",
        concat!(
            "Name(\"l\") 0..1\nMark(Colon) 1..2\nMark(OpenBracket) 3..4\nInteger(1) 4..5\n",
            "Mark(Comma) 5..5\n",
            "Integer(2) 6..7\nMark(CloseBracket) 7..8\nMark(Comma) 8..8\n"
        ),
    )
}

#[test]
fn which_tokens_end_a_line(rt: HostRuntime) -> Result<(), Fail> {
    let so = " // so\n\n";
    each_accepts_before(&rt, &["a", "#a", "_a", "_"], so, 2)?;
    each_accepts_before(&rt, &["1", "\"\"", "_|_"], so, 2)?;
    each_accepts_before(&rt, &[")", "]", "}", "...", "?", "!"], so, 2)?;
    each_accepts_before(&rt, &["(", "[", "{", ":", ","], "\n", 1)?;
    each_accepts_before(&rt, &["|", "&", "*", "-", "+"], "\n", 1)?;
    each_accepts_before(&rt, &["<", "<=", ">", ">=", "!="], "\n", 1)?;
    accepts(&rt, rt.alloc(), "a\n", 2);
    accepts(&rt, rt.alloc(), "a", 1);
    accepts(&rt, rt.alloc(), "( a )", 3);
    accepts(&rt, rt.alloc(), "a\n\n\nb", 3);
    Ok(())
}

#[test]
fn punctuation(rt: HostRuntime) -> Result<(), Fail> {
    assert_tokens(
        &rt,
        "{}[]():,?!|&*-+<>...<=>=!=_|_",
        concat!(
            "Mark(OpenBrace) 0..1\nMark(CloseBrace) 1..2\nMark(OpenBracket) 2..3\n",
            "Mark(CloseBracket) 3..4\nMark(OpenParenthesis) 4..5\n",
            "Mark(CloseParenthesis) 5..6\nMark(Colon) 6..7\nMark(Comma) 7..8\n",
            "Mark(Question) 8..9\nMark(Exclamation) 9..10\nMark(Bar) 10..11\n",
            "Mark(Ampersand) 11..12\nMark(Star) 12..13\nMark(Minus) 13..14\nMark(Plus) 14..15\n",
            "Mark(Less) 15..16\nMark(Greater) 16..17\n",
            "Mark(Ellipsis) 17..20\nMark(AtMost) 20..22\nMark(AtLeast) 22..24\n",
            "Mark(NotEqual) 24..26\nBottom 26..29\n"
        ),
    )
}

#[test]
fn names(rt: HostRuntime) -> Result<(), Fail> {
    assert_tokens(
        &rt,
        "ab #A_1 _ _x _#y $",
        concat!(
            "Name(\"ab\") 0..2\nDefinition(\"#A_1\") 3..7\n",
            "Hidden(\"_\") 8..9\nHidden(\"_x\") 10..12\n",
            "Hidden(\"_#y\") 13..16\nName(\"$\") 17..18\n"
        ),
    )?;
    assert_texts(&rt, "é٣ ñ", "é٣;ñ;")?;
    Ok(())
}

#[test]
fn integers(rt: HostRuntime) -> Result<(), Fail> {
    assert_tokens(
        &rt,
        "0 0x1F 0Xff 1_000 0o17 0b1_01 1é",
        concat!(
            "Integer(0) 0..1\nInteger(31) 2..6\nInteger(255) 7..11\nInteger(1000) 12..17\n",
            "Integer(15) 18..22\nInteger(5) 23..29\nInteger(1) 30..31\nName(\"é\") 31..33\n"
        ),
    )
}

#[test]
fn strings(rt: HostRuntime) -> Result<(), Fail> {
    assert_texts(&rt, "a: \"\\ud83d\\ude00\"", "a;\u{1F600};")?;
    assert_texts(
        &rt,
        "\"\\n\\t\\/\\\\\\\"\\u00e9\\U0001F600é\"",
        "\n\t/\\\"é\u{1F600}é;",
    )?;
    assert_texts(
        &rt,
        "\"\\a\\b\\f\\r\\v\" \"\"",
        "\u{07}\u{08}\u{0C}\r\u{0B};;",
    )?;
    Ok(())
}

#[test]
fn limits(rt: HostRuntime) -> Result<(), Fail> {
    let alloc = rt.alloc();
    refuses_made(&rt, long(alloc, "=", " ", 1_048_576, ""), 1, 1_048_576)?;
    refuses_made(&rt, long(alloc, "=", " ", 1_048_575, ""), 2, 0)?;
    accepts_made(&rt, long(alloc, "", "a", 65_535, ""))?;
    refuses_made(&rt, long(alloc, "#", "a", 65_535, ""), 6, 0)?;
    accepts_made(&rt, long(alloc, "\"", "\\n", 65_535, "\""))?;
    refuses_made(&rt, long(alloc, "a: \"", "é", 32_768, "\""), 6, 3)?;
    refuses_made(&rt, long(alloc, "a: \"", "é", 32_768, "\\q\""), 3, 65_540)?;
    refuses_made(&rt, long(alloc, "a: \"", "é", 32_768, "\n"), 3, 3)?;
    Ok(())
}

/// The word that a text is.
fn word(text: &str) -> Option<Word> {
    Word::new(text)
}

/// The same word once more.
fn shared(word: Option<Word>) -> Option<Word> {
    Some(word?.share())
}

/// Whether it is a word of this text.
fn has_text(word: Option<Word>, text: &str) -> bool {
    matches!(word, Some(word) if word.as_str() == text)
}

/// Whether it is a word of these bytes.
fn has_bytes(word: Option<Word>, bytes: &[u8]) -> bool {
    matches!(word, Some(word) if word.as_bytes() == bytes)
}

/// Whether a copy of the word is this text.
fn is_copied(alloc: Global, word: Option<Word>, text: &str) -> Made<bool> {
    match word {
        Some(word) => Ok(word.to_text(alloc)?.as_str() == text),
        None => Ok(false),
    }
}

/// The word as it stands.
fn displayed(alloc: Global, word: Option<Word>) -> Made<String> {
    match word {
        Some(word) => Ok(format!(in alloc; "{word}")?),
        None => Ok(String::new(alloc)),
    }
}

/// Whether the first word comes after the second.
fn is_after(first: Option<Word>, second: Option<Word>) -> bool {
    match (first, second) {
        (Some(first), Some(second)) => first.compare(&second) == Ordering::Greater,
        _ => false,
    }
}

/// Whether both are one word, where both are words.
fn are_same(left: Option<Word>, right: Option<Word>) -> Option<bool> {
    Some(left?.same(&right?))
}

#[test]
fn words(rt: HostRuntime) -> Result<(), Fail> {
    assert!(rt; has_text(shared(word("é")), "é"));
    assert!(rt; has_bytes(word("é"), &[0xC3, 0xA9]));
    assert!(rt; is_copied(rt.alloc(), word("é"), "é")?);
    assert!(rt; is_text(displayed(rt.alloc(), word("é")), "é")?);
    assert!(rt; is_after(word("é"), word("z")));
    assert!(rt; are_same(word("é"), word("é")) == Some(true));
    assert!(rt; are_same(word("é"), word("e")) == Some(false));
    Ok(())
}

/// Whether a text is a word, which is that text.
fn is_word(text: Made<String>) -> Made<bool> {
    let text = text?;
    Ok(has_text(word(text.as_str()), text.as_str()))
}

/// Whether a text is no word.
fn is_no_word(text: Made<String>) -> Made<bool> {
    Ok(word(text?.as_str()).is_none())
}

#[test]
fn word_limit(rt: HostRuntime) -> Result<(), Fail> {
    assert!(rt; is_word(repeated(rt.alloc(), "a", 65_535))?);
    assert!(rt; is_no_word(repeated(rt.alloc(), "a", 65_536))?);
    Ok(())
}

/// A plain string of a word.
fn plain(word: Option<Word>) -> Option<Quoted> {
    Some(Quoted::as_plain(word?))
}

/// A string with an escape.
fn decoded<'a>(alloc: Global) -> Made<Quoted<'a>> {
    Quoted::from_decoded(alloc, String::from_str(alloc, "a\n")?)
}

/// Whether it is a string of this text.
fn is_quoted(quoted: Option<Quoted>, text: &str) -> bool {
    matches!(quoted, Some(quoted) if quoted.as_str() == text)
}

/// Whether the word of a string is this text.
fn is_word_of(quoted: Made<Quoted>, text: &str) -> Made<bool> {
    Ok(quoted?.word().as_str() == text)
}

/// A string as it is written for debugging.
fn for_debugging(alloc: Global, quoted: Made<Quoted>) -> Made<String> {
    debugged(alloc, &quoted?)
}

/// A string as it stands.
fn as_it_stands(alloc: Global, quoted: Option<Quoted>) -> Made<String> {
    match quoted {
        Some(quoted) => Ok(format!(in alloc; "{quoted}")?),
        None => Ok(String::new(alloc)),
    }
}

/// Whether it is this text.
fn is_text(found: Made<String>, text: &str) -> Made<bool> {
    Ok(found?.as_str() == text)
}

#[test]
fn quoted_texts(rt: HostRuntime) -> Result<(), Fail> {
    let alloc = rt.alloc();
    assert!(rt; is_quoted(plain(word("ab")), "ab"));
    assert!(rt; is_word_of(decoded(alloc), "a\n")?);
    assert!(rt; is_text(for_debugging(alloc, decoded(alloc)), "\"a\\n\"")?);
    assert!(rt; is_text(as_it_stands(alloc, plain(word("b"))), "b")?);
    Ok(())
}
