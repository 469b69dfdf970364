ghost use Rattle.std.specs.Prelude.{◌≡◌};
ghost use Rattle.cue_service.specs.Escapes.{is_hidden};

use std::fmt;
use std::fmt::{Display, Formatter, Write};

/// Whether a character says how others are shown, or nothing that is seen: U+0000 to U+001F, U+007F to
/// U+009F, U+202A to U+202E, U+2066 to U+2069.
pub fn is_hidden(c: char) -> bool
    ensures { result ≡ is_hidden c }
{
    let number = u32::from(c);
    number <= 0x1F
        || (0x7F <= number && number <= 0x9F)
        || (0x202A <= number && number <= 0x202E)
        || (0x2066 <= number && number <= 0x2069)
}

/// A text in which each hidden character is written as its number: `\u{202e}`.
#[derive(Clone, Copy)]
pub struct Shown<'a>(pub &'a str);

impl Display for Shown<'_> {
    fn fmt<W: Write>(&self, f: &mut Formatter<W>) -> fmt::Result {
        for c in self.0.chars() {
            if is_hidden(c) {
                write!(f, "\\u{{{:x}}}", u32::from(c))?;
            } else {
                f.write_char(c)?;
            }
        }
        Ok(())
    }
}
