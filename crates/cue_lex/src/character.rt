ghost use Rattle.std.specs.Prelude.{◌≡◌, ◌==◌, ◌||◌};
ghost use Rattle.std.specs.Char.{is_ascii_alphabetic};
ghost use Rattle.cue_lex.specs.Characters.{is_letter, is_name_part, is_ascii_part};

use unicode::properties::{GeneralCategory, GeneralCategoryGroup};

/// Whether a name may begin with this character: a letter of Unicode (general category Lu, Ll, Lt,
/// Lm or Lo), `_` or `$`.
#[tactic(auto, unfolding(crate::specs::Characters::is_letter))]
pub fn is_letter(c: char) -> bool
    ensures { result ≡ is_letter c }
{
    if c.is_ascii() {
        return is_ascii_letter(c);
    }
    c == '_' || c == '$' || GeneralCategoryGroup::Letter.contains(GeneralCategory::for_char(c))
}

/// Whether a name may begin with this character of ASCII.
fn is_ascii_letter(c: char) -> bool
    ensures { result ≡ (is_ascii_alphabetic c || (c == 95)) || (c == 36) }
{
    c.is_ascii_alphabetic() || c == '_' || c == '$'
}

/// Whether a name may go on with this character: a letter, or a decimal digit of Unicode (general
/// category Nd).
#[tactic(auto, unfolding(crate::specs::Characters::is_name_part))]
pub fn is_name_part(c: char) -> bool
    ensures { result ≡ is_name_part c }
{
    is_letter(c) || GeneralCategory::for_char(c) == GeneralCategory::DecimalNumber
}

/// Whether a name may go on with this character of ASCII. False for bytes above 127.
pub fn is_ascii_part(byte: u8) -> bool
    ensures { result ≡ is_ascii_part byte }
{
    if byte >= b'a' {
        return byte <= b'z';
    }
    byte.is_ascii_uppercase() || byte.is_ascii_digit() || byte == b'_' || byte == b'$'
}
