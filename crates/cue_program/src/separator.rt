ghost use Rattle.std.specs.Prelude.{◌≡◌, ◌<◌, ◌==◌, ◌++◌, ◌↔◌, ◌∷◌, [], length};
ghost use Rattle.std.specs.Prelude.{IsTrue, IfSome, IfNone};
ghost use Rattle.std.specs.List.{position};
ghost use Rattle.std.specs.Option.{option_map};
ghost use Rattle.cue_program.specs.Parts.{lines_of, IsSeparator, IsFirstPart};
ghost use Rattle.cue_program.specs.inner.Taking.{IsLineEnd, IsUnbroken};

/// Whether the line separates two parts: it is exactly `---`, with its line break or, at the end,
/// without one.
pub fn is_separator(line: &[u8]) -> bool
    ensures { IsTrue result ↔ IsSeparator line.now }
{
    line == b"---\n".as_slice() || line == b"---".as_slice()
}

/// Where the first line break stands.
fn line_break(bytes: &[u8]) -> Option<usize>
    ensures { result ≡ position (λ byte. byte == 10) bytes.now }
{
    bytes.iter().position(|byte| *byte == b'\n')
}

/// The first line, with its line break, and what follows it.
pub fn first_line(bytes: &[u8]) -> (&[u8], &[u8])
    requires { 0 < length bytes.now }
    ensures some { 0 < length result.0.now }
    ensures whole { bytes.now ≡ result.0.now ++ result.1.now }
    ensures lines { lines_of bytes.now ≡ result.0.now ∷ lines_of result.1.now }
{
    match line_break(bytes) {
        Some(length) => bytes.split_at(length + 1),
        None => (bytes, &[]),
    }
}

/// Up to the first line break, and what follows it, where there is one.
pub fn line_end(bytes: &[u8]) -> Option<(&[u8], &[u8])>
    ensures ended { IfSome result (λ cut. IsLineEnd cut.0.now) }
    ensures whole { IfSome result (λ cut. bytes.now ≡ cut.0.now ++ cut.1.now) }
    ensures none { IfNone result (IsUnbroken bytes.now) }
{
    let length = line_break(bytes)?;
    Some(bytes.split_at(length + 1))
}

/// The part in front of the first separating line, and what follows that line, where there is one.
pub fn first_part(bytes: &[u8]) -> (&[u8], Option<&[u8]>)
    ensures part { IsFirstPart bytes.now result.0.now (option_map (λ rest. rest.now) result.1) }
    ensures less { IfSome result.1 (λ rest. length rest.now < length bytes.now) }
{
    let mut rest = bytes;
    while !rest.is_empty() {
        let (line, after) = first_line(rest);
        if is_separator(line) {
            return (&bytes[..bytes.len() - rest.len()], Some(after));
        }
        rest = after;
    }
    (bytes, None)
}
