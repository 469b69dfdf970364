ghost use Rattle.std.specs.Prelude.{◌≡◌, ◌<◌, ◌++◌, OnErr, OnOk, string_bytes};
ghost use Rattle.std.specs.Char.{digit_char};
ghost use Rattle.std.specs.List.{flat_map, list_all};
ghost use Rattle.std.specs.Str.{chars};
ghost use Rattle.cue_row.specs.Begun.{StillBegins};
ghost use Rattle.cue_row.specs.Inner.Quoted.{is_plain_byte};
ghost use Rattle.cue_row.specs.Quoted.{quote_text, char_text};

use cue_lattice::Memory;

/// Writes a text between quotation marks, with the escapes of a CUE string literal.
pub fn push_quoted(out: &mut String, text: &str) -> Result<(), Memory>
    ensures written { OnOk result (string_bytes out.new ≡ string_bytes out.old ++ quote_text text.now) }
    // Where memory runs out, what stood there before still begins the text.
    ensures kept { OnErr result (StillBegins (string_bytes out.old) (string_bytes out.new)) }
{
    out.push('"')?;
    push_escaped(out, text)?;
    out.push('"')?;
    Ok(())
}

/// Writes the characters of a text, each as it stands between quotation marks. Most texts are
/// written as they are.
fn push_escaped(out: &mut String, text: &str) -> Result<(), Memory>
    ensures written { OnOk result (string_bytes out.new
        ≡ string_bytes out.old ++ flat_map char_text (chars text.now)) }
    ensures kept { OnErr result (StillBegins (string_bytes out.old) (string_bytes out.new)) }
{
    if is_plain(text.as_bytes()) {
        out.push_str(text)?;
        return Ok(());
    }
    for character in text.chars() {
        push_char(out, character)?;
    }
    Ok(())
}

/// Whether each byte is a character that stands for itself between quotation marks.
fn is_plain(text: &[u8]) -> bool
    ensures { result ≡ list_all is_plain_byte text.now }
{
    text.iter().all(|byte| is_plain_byte(*byte))
}

/// Whether a byte is a character of ASCII that stands for itself between quotation marks.
fn is_plain_byte(byte: u8) -> bool
    ensures { result ≡ is_plain_byte byte }
{
    byte >= b' ' && byte < 0x7f && byte != b'"' && byte != b'\\'
}

/// Writes a character as it stands between quotation marks.
fn push_char(out: &mut String, character: char) -> Result<(), Memory>
    ensures written { OnOk result
        (string_bytes out.new ≡ string_bytes out.old ++ char_text character) }
    ensures kept { OnErr result (StillBegins (string_bytes out.old) (string_bytes out.new)) }
{
    match character {
        '"' => out.push_str("\\\"")?,
        '\\' => out.push_str("\\\\")?,
        '\n' => out.push_str("\\n")?,
        '\r' => out.push_str("\\r")?,
        '\t' => out.push_str("\\t")?,
        '\0'..='\x1f' | '\x7f' => {
            let code = character as u32;
            out.push_str("\\u00")?;
            out.push(hex_digit(code / 16))?;
            out.push(hex_digit(code % 16))?;
        }
        _ => out.push(character)?,
    }
    Ok(())
}

/// The lower-case hexadecimal digit of a number.
fn hex_digit(number: u32) -> char
    requires { number < 16 }
    ensures { result ≡ digit_char number }
{
    char::from_digit(number, 16).unwrap()
}
