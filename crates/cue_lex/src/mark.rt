ghost use Rattle.std.specs.Prelude.{◌≡◌, ◌<◌, IfSome};
ghost use Rattle.cue_lex.specs.Marks.{mark_in_front, single_mark, TakesTheLongest};
ghost use Rattle.cue_lex.specs.Lexemes.{EndsAscii};

use crate::Punctuation;

/// The longest punctuation mark at the front, and how many bytes it has.
#[tactic(auto, unfolding(crate::specs::Marks::mark_in_front))]
pub fn mark(bytes: &[u8]) -> Option<(Punctuation, usize)>
    ensures value { result ≡ mark_in_front bytes.now }
    ensures ends { IfSome result (λ found. EndsAscii bytes.now found.1) }
{
    let [first, rest @ ..] = bytes else {
        return None;
    };
    match *first {
        b'.' if rest.starts_with(b"..") => Some((Punctuation::Ellipsis, 3)),
        b'<' if rest.starts_with(b"=") => Some((Punctuation::AtMost, 2)),
        b'>' if rest.starts_with(b"=") => Some((Punctuation::AtLeast, 2)),
        b'!' if rest.starts_with(b"=") => Some((Punctuation::NotEqual, 2)),
        byte => Some((mark_of_byte(byte)?, 1)),
    }
}

/// The punctuation mark that this byte alone is.
#[tactic(auto, unfolding(crate::specs::Marks::single_mark))]
fn mark_of_byte(byte: u8) -> Option<Punctuation>
    ensures value { result ≡ single_mark byte }
    ensures ascii { IfSome result (λ _. byte < 128) }
{
    Some(match byte {
        b'{' => Punctuation::OpenBrace,
        b'}' => Punctuation::CloseBrace,
        b'[' => Punctuation::OpenBracket,
        b']' => Punctuation::CloseBracket,
        b'(' => Punctuation::OpenParenthesis,
        b')' => Punctuation::CloseParenthesis,
        b':' => Punctuation::Colon,
        b',' => Punctuation::Comma,
        b'?' => Punctuation::Question,
        b'!' => Punctuation::Exclamation,
        b'|' => Punctuation::Bar,
        b'&' => Punctuation::Ampersand,
        b'*' => Punctuation::Star,
        b'-' => Punctuation::Minus,
        b'+' => Punctuation::Plus,
        b'<' => Punctuation::Less,
        b'>' => Punctuation::Greater,
        _ => return None,
    })
}

/// Says by its contract that of all marks that stand at a place the longest is the one that `lex`
/// takes.
#[tactic(auto, using(crate::proofs::LongestMark::takes_the_longest))]
pub fn longest_mark()
    ensures { TakesTheLongest }
{}
