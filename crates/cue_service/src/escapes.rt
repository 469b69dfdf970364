ghost use Rattle.std.specs.Prelude.{◌≡◌, ◌++◌, OnOk, string_bytes};
ghost use Rattle.cue_service.specs.Escapes.{escaped, escaped_char};

use crate::shown::is_hidden;
use cue_lattice::Memory;
use std::fmt::Write;

/// Adds a text so that a browser shows it as it is, and each hidden character by its number.
pub(crate) fn add_escaped(page: &mut String, text: &str) -> Result<(), Memory>
    ensures { OnOk result (string_bytes page.new ≡ string_bytes page.old ++ escaped text.now) }
{
    for c in text.chars() {
        add_char(page, c)?;
    }
    Ok(())
}

fn add_char(page: &mut String, c: char) -> Result<(), Memory>
    ensures { OnOk result (string_bytes page.new ≡ string_bytes page.old ++ escaped_char c) }
{
    match c {
        '<' => page.push_str("&lt;")?,
        '>' => page.push_str("&gt;")?,
        '&' => page.push_str("&amp;")?,
        '"' => page.push_str("&quot;")?,
        '\'' => page.push_str("&#39;")?,
        '\n' => page.push('\n')?,
        other if is_hidden(other) => write!(page, "\\u{{{:x}}}", u32::from(other))?,
        other => page.push(other)?,
    }
    Ok(())
}
