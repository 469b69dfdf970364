ghost use Rattle.std.specs.Prelude.{◌≡◌, ◌≤◌, ◌<◌, ◌+◌, length, slice_index, min};
ghost use Rattle.std.specs.Prelude.{Some, None, if◌then◌else◌, IfOk};
ghost use Rattle.std.specs.List.{prefix_len};
ghost use Rattle.std.specs.Option.{option_map};
ghost use Rattle.cue_lex.specs.Integers.{is_literal_byte, digits_number, literal_number};
ghost use Rattle.cue_lex.specs.Inner.Integers.{digit};
ghost use Rattle.cue_lex.specs.Lexemes.{integer, EndsAscii, len_of};

use crate::TokenKind;
use crate::lexeme::Lexeme;
use cue_lattice::{Kind, Refusal};

/// The greatest magnitude without a `-` before it.
const GREATEST: u64 = 9_223_372_036_854_775_807;

/// The number of so many decimal digits is below 2^64.
const SHORT: usize = 18;

/// The integer literal at the front, where a decimal digit stands there.
#[tactic(auto, unfolding(crate::specs::Lexemes::integer))]
pub fn integer<'a>(bytes: &[u8], at: usize, after_minus: bool) -> Result<Lexeme<'a>, Refusal>
    requires nonempty { 0 < length bytes.now }
    requires at_least { 48 ≤ slice_index bytes.now 0 }
    requires at_most { slice_index bytes.now 0 ≤ 57 }
    ensures value { result ≡ integer after_minus at bytes.now }
    ensures ends { IfOk result (λ found. EndsAscii bytes.now (len_of found)) }
{
    let len = literal_len(bytes);
    let Some(magnitude) = magnitude(&bytes[..len]) else {
        return Err(Refusal::at(Kind::BadNumber, at));
    };
    if magnitude > GREATEST && !(after_minus && magnitude == GREATEST + 1) {
        return Err(Refusal::at(Kind::IntRange, at));
    }
    Ok(Lexeme::Word(TokenKind::Integer(magnitude), len))
}

/// How many ASCII letters, ASCII digits, `_` and `.` stand at the front.
#[tactic(auto, using(crate::proofs::Fronts::literal_more))]
fn literal_len(bytes: &[u8]) -> usize
    requires nonempty { 0 < length bytes.now }
    requires at_least { 48 ≤ slice_index bytes.now 0 }
    requires at_most { slice_index bytes.now 0 ≤ 57 }
    ensures value { result ≡ prefix_len is_literal_byte bytes.now }
    ensures ends { EndsAscii bytes.now result }
{
    1 + more_len(&bytes[1..])
}

/// How many bytes at the front belong to a literal that began before them.
fn more_len(bytes: &[u8]) -> usize
    ensures value { result ≡ prefix_len is_literal_byte bytes.now }
    ensures within { result ≤ length bytes.now }
{
    bytes
        .iter()
        .take_while(|byte| is_literal_byte(**byte))
        .count()
}

fn is_literal_byte(byte: u8) -> bool
    ensures { result ≡ is_literal_byte byte }
{
    if byte < b'0' {
        return byte == b'.';
    }
    byte.is_ascii_alphanumeric() || byte == b'_'
}

/// The number that a literal spells, or `u64::MAX` where it is above that. None where it spells no
/// number.
#[tactic(auto, unfolding(crate::specs::Integers::literal_number))]
fn magnitude(literal: &[u8]) -> Option<u64>
    ensures { result ≡ option_map (λ n. min n u64.MAX) (literal_number literal.now) }
{
    if let [digit] = literal
        && digit.is_ascii_digit()
    {
        return Some((*digit - b'0') as u64);
    }
    match literal {
        [b'0', b'x' | b'X', digits @ ..] => digits_value(digits, 16),
        [b'0', b'o', digits @ ..] => digits_value(digits, 8),
        [b'0', b'b', digits @ ..] => digits_value(digits, 2),
        [b'1'..=b'9', ..] => decimal_value(literal),
        _ => None,
    }
}

/// The number that decimal digits spell, as `digits_value` has it. So few digits without a `_`
/// spell one that no sum is too large for.
fn decimal_value(digits: &[u8]) -> Option<u64>
    requires { 0 < length digits.now }
    ensures { result ≡ option_map (λ n. min n u64.MAX) (digits_number 10 digits.now) }
{
    if digits.len() > SHORT {
        return digits_value(digits, 10);
    }
    let mut value = 0u64;
    for byte in digits {
        let Some(digit) = digit_of(*byte, 10) else {
            return digits_value(digits, 10);
        };
        value = value * 10 + digit as u64;
    }
    Some(value)
}

/// The number that digits of a base spell, with single `_` between them, or `u64::MAX` where it is
/// above that.
#[tactic(auto, unfolding(crate::specs::Integers::digits_number))]
#[inline(always)]
fn digits_value(digits: &[u8], base: u8) -> Option<u64>
    requires at_least { 2 ≤ base }
    requires at_most { base ≤ 36 }
    ensures { result ≡ option_map (λ n. min n u64.MAX) (digits_number base digits.now) }
{
    let mut value = 0u64;
    let mut after_digit = false;
    for byte in digits {
        if *byte == b'_' {
            if !after_digit {
                return None;
            }
            after_digit = false;
        } else {
            let digit = digit_of(*byte, base)?;
            value = value
                .saturating_mul(base as u64)
                .saturating_add(digit as u64);
            after_digit = true;
        }
    }
    after_digit.then_some(value)
}

/// What a digit of this base stands for, letters in either case.
#[inline(always)]
fn digit_of(byte: u8, base: u8) -> Option<u32>
    requires at_least { 2 ≤ base }
    requires at_most { base ≤ 36 }
    ensures { result ≡ digit base byte }
{
    char::from(byte).to_digit(base as u32)
}
