ghost use Rattle.std.specs.Prelude.{◌≡◌, ◌≢◌, ◌≤◌, ◌<◌, ◌+◌, ◌-◌, ◌^◌, length, slice_index, drop};
ghost use Rattle.std.specs.Prelude.{Some, None, Ok, Err, IfOk, IfErr, IfSome, string_bytes};
ghost use Rattle.std.specs.Prelude.{encode_utf8, OnOk, IfNone, ℕ, nat_le, ◌++◌, if◌then◌else◌};
ghost use Rattle.std.specs.List.{prefix_len};
ghost use Rattle.std.specs.Str.{IsCharBoundary};
ghost use Rattle.cue_lattice.specs.Limits.{word_limit};
ghost use Rattle.cue_lattice.specs.Refusal.{memory};
ghost use Rattle.cue_lex.specs.Strings.{bad_string, body, with_front, escape_sequence, short_escape, pair};
ghost use Rattle.cue_lex.specs.Strings.{simple_escape, eight_digits, four_digits, hexadecimal};
ghost use Rattle.cue_lex.specs.Inner.Strings.{is_plain};
ghost use Rattle.cue_lex.specs.Lexemes.{LexesTo, string, within_text_limit, EndsAscii, len_of};

use crate::lexeme::Lexeme;
use crate::{Quoted, TokenKind, Word};
use cue_lattice::{Kind, Memory, Refusal, WORD_LIMIT};
use std::alloc::Global;

/// The string at the front, where a `"` stands there.
#[tactic(auto, unfolding(crate::specs::Lexemes::string, crate::specs::Strings::string_text))]
pub fn string<'a>(alloc: Global, text: &'a str, at: usize) -> Result<Lexeme<'a>, Refusal>
    requires nonempty { 0 < length text.now }
    requires quoted { slice_index text.now 0 ≡ 34 }
    requires room { at + length text.now < 2 ^ 63 }
    ensures gives { LexesTo result (string at text.now) }
    ensures ends { IfOk result (λ found. EndsAscii text.now (len_of found)) }
{
    let inside = &text[1..];
    if inside.as_bytes().starts_with(b"\"\"") {
        return Err(bad_string(at));
    }
    if let Some(plain) = as_plain(inside) {
        let len = plain.len() + 2;
        let Some(word) = Word::new(plain) else {
            return Err(Refusal::at(Kind::TextTooLong, at));
        };
        return Ok(Lexeme::Word(TokenKind::Text(Quoted::as_plain(word)), len));
    }
    let (decoded, len) = body(alloc, inside, at)?;
    if decoded.len() > WORD_LIMIT {
        return Err(Refusal::at(Kind::TextTooLong, at));
    }
    let decoded = Quoted::from_decoded(alloc, decoded)?;
    Ok(Lexeme::Word(TokenKind::Text(decoded), len + 1))
}

/// What stands before the closing quote, where no escape does. None where one does, and where the
/// string isn't closed.
fn as_plain<'a>(inside: &'a str) -> Option<&'a str>
    ensures body { IfSome result (λ plain. (start place : ℕ) →
        body start 0 place inside.now ≡ Ok (plain.now, place + length plain.now + 1)) }
    ensures ends { IfSome result (λ plain. EndsAscii inside.now (length plain.now + 1)) }
{
    let bytes = inside.as_bytes();
    let len = plain_len(bytes);
    if len < bytes.len() && bytes[len] == b'"' {
        Some(&inside[..len])
    } else {
        None
    }
}

/// How many bytes stand before the first quote, backslash or line break.
fn plain_len(bytes: &[u8]) -> usize
    ensures { result ≡ prefix_len is_plain bytes.now }
{
    bytes.iter().take_while(|byte| is_plain(**byte)).count()
}

/// Whether a byte of a string stands for itself: no quote, backslash or line break.
fn is_plain(byte: u8) -> bool
    ensures { result ≡ is_plain byte }
{
    if byte > b'\\' {
        return true;
    }
    byte != b'"' && byte != b'\\' && byte != b'\n'
}

fn bad_string(place: usize) -> Refusal
    ensures { result ≡ bad_string place }
{
    Refusal::at(Kind::BadString, place)
}

/// What the inside of a string stands for, or a longer text than is kept, and how many bytes it has
/// with the closing quote. The string begins at `start_sets`, and `text` follows its opening quote.
fn body(alloc: Global, text: &str, start: usize) -> Result<(String, usize), Refusal>
    requires { start + 1 + length text.now < 2 ^ 63 }
    ensures ok { IfOk result (λ found. within_text_limit start (body start 0 (start + 1) text.now)
        ≡ within_text_limit start (Ok (string_bytes found.0, start + 1 + found.1))) }
    ensures err { IfErr result (λ refusal. refusal ≢ memory →
        body start 0 (start + 1) text.now ≡ Err refusal) }
    ensures ends { IfOk result (λ found. EndsAscii text.now found.1) }
{
    let mut decoded = String::new(alloc);
    let mut len = 0;
    let mut rest = text;
    while !rest.is_empty() {
        match rest.as_bytes()[0] {
            b'"' => return Ok((decoded, len + 1)),
            b'\n' => return Err(bad_string(start)),
            _ => {}
        }
        let Some((meant, width)) = element(rest) else {
            return Err(bad_string(start + 1 + len));
        };
        keep(&mut decoded, meant)?;
        len += width;
        rest = &rest[width..];
    }
    Err(bad_string(start))
}

/// What the first character of a string's inside stands for, or the escape that it begins, and how
/// many bytes that is. None where it begins a bad escape.
fn element(text: &str) -> Option<(char, usize)>
    requires nonempty { 0 < length text.now }
    requires no_quote { slice_index text.now 0 ≢ 34 }
    requires no_break { slice_index text.now 0 ≢ 10 }
    ensures found { IfSome result (λ found. (start place : ℕ) → body start 0 place text.now
        ≡ with_front (encode_utf8 found.0)
        (body start 0 (place + found.1) (drop found.1 text.now))) }
    ensures bad { IfNone result ((start place : ℕ) →
        body start 0 place text.now ≡ Err (bad_string place)) }
    ensures some { IfSome result (λ found. 0 < found.1) }
    ensures boundary { IfSome result (λ found. IsCharBoundary text.now found.1) }
{
    let c = text.chars().next()?;
    if c != '\\' {
        return Some((c, c.len_utf8()));
    }
    let (meant, width) = escape(&text.as_bytes()[1..])?;
    Some((meant, 1 + width))
}

/// Adds a character, unless the text is too long already.
fn keep(decoded: &mut String, c: char) -> Result<(), Memory>
    ensures { OnOk result (string_bytes decoded.new
        ≡ (if nat_le (length (string_bytes decoded.old)) word_limit
        then string_bytes decoded.old ++ encode_utf8 c else string_bytes decoded.old)) }
{
    if decoded.len() <= WORD_LIMIT {
        decoded.push(c)?;
    }
    Ok(())
}

/// What an escape stands for, by the bytes after its backslash, and how many of these bytes it has.
#[tactic(auto, unfolding(crate::specs::Strings::escape_sequence))]
fn escape(bytes: &[u8]) -> Option<(char, usize)>
    ensures value { result ≡ escape_sequence bytes.now }
    ensures ends { IfSome result (λ found. EndsAscii bytes.now found.1) }
{
    match bytes {
        [b'u', digits @ ..] => short_escape(digits),
        [b'U', digits @ ..] => Some((char::from_u32(eight_digits(digits)?)?, 9)),
        [letter, ..] => Some((simple_escape(*letter)?, 1)),
        [] => None,
    }
}

/// What a single letter after a backslash stands for.
#[tactic(auto, unfolding(crate::specs::Strings::simple_escape))]
fn simple_escape(letter: u8) -> Option<char>
    ensures value { result ≡ simple_escape letter }
    ensures ascii { IfSome result (λ _. letter < 128) }
{
    Some(match letter {
        b'a' => '\u{07}',
        b'b' => '\u{08}',
        b'f' => '\u{0C}',
        b'n' => '\n',
        b'r' => '\r',
        b't' => '\t',
        b'v' => '\u{0B}',
        b'/' => '/',
        b'\\' => '\\',
        b'"' => '"',
        _ => return None,
    })
}

/// What the digits after a `\u` stand for, with those of a second escape where the two are a
/// surrogate pair, and how many bytes follow the backslash.
#[tactic(auto, unfolding(crate::specs::Strings::short_escape))]
fn short_escape(digits: &[u8]) -> Option<(char, usize)>
    ensures value { result ≡ short_escape digits.now }
    ensures ends { IfSome result (λ found. EndsAscii digits.now (found.1 - 1)) }
{
    let unit = four_digits(digits)?;
    if unit < 0xD800 || unit > 0xDBFF {
        return Some((char::from_u32(unit)?, 5));
    }
    pair(unit, &digits[4..])
}

/// The character of a high surrogate and of the low one whose escape is at the front.
fn pair(high: u32, bytes: &[u8]) -> Option<(char, usize)>
    requires at_least { 0xD800 ≤ high }
    requires at_most { high ≤ 0xDBFF }
    ensures value { result ≡ pair high bytes.now }
    ensures ends { IfSome result (λ found. EndsAscii bytes.now 6 × (found.1 ≡ 11)) }
{
    let [b'\\', b'u', digits @ ..] = bytes else {
        return None;
    };
    let low = four_digits(digits)?;
    if low < 0xDC00 || low > 0xDFFF {
        return None;
    }
    let c = char::from_u32((high - 0xD800) * 0x400 + (low - 0xDC00) + 0x1_0000)?;
    Some((c, 11))
}

/// The number that eight hexadecimal digits at the front spell.
#[tactic(auto, unfolding(crate::specs::Strings::eight_digits))]
fn eight_digits(bytes: &[u8]) -> Option<u32>
    ensures value { result ≡ eight_digits bytes.now }
    ensures ends { IfSome result (λ _. EndsAscii bytes.now 8) }
{
    let high = four_digits(bytes)?;
    let low = four_digits(&bytes[4..])?;
    Some(high * 0x1_0000 + low)
}

/// The number that four hexadecimal digits at the front spell.
#[tactic(auto, unfolding(crate::specs::Strings::four_digits))]
fn four_digits(bytes: &[u8]) -> Option<u32>
    ensures value { result ≡ four_digits bytes.now }
    ensures bound { IfSome result (λ n. n < 0x1_0000) }
    ensures ends { IfSome result (λ _. EndsAscii bytes.now 4) }
{
    match bytes {
        [a, b, c, d, ..] => {
            let a = hexadecimal(*a)?;
            let b = hexadecimal(*b)?;
            let c = hexadecimal(*c)?;
            let d = hexadecimal(*d)?;
            Some(a * 0x1000 + b * 0x100 + c * 0x10 + d)
        }
        _ => None,
    }
}

/// What a hexadecimal digit stands for.
fn hexadecimal(byte: u8) -> Option<u32>
    ensures value { result ≡ hexadecimal byte }
    ensures bound { IfSome result (λ n. n < 16) }
    ensures ascii { IfSome result (λ _. byte < 128) }
{
    char::from(byte).to_digit(16)
}
