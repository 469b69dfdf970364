//! Files that are longer than a text may be, which are read to their end and not kept whole.
use crate::disk::Entry;
use crate::files::ran_over;
use std::alloc::Global;
use std::test::Fail;

/// Whether a report on two files, of which this is the second, ends with this status, and prints
/// this.
fn reports(alloc: Global, file: Entry, status: u8, out: &str, faults: &str) -> Result<bool, Fail> {
    let files = [("a", Entry::Bytes(b"a: 1\n")), ("long", file)];
    let run = ran_over(alloc, &files, &["report", "a", "long"], b"")?;
    Ok(run.is(status, out.as_bytes(), faults.as_bytes()))
}

/// Whether the file is refused as too long for a text.
fn is_too_long(alloc: Global, file: Entry) -> Result<bool, Fail> {
    reports(alloc, file, 1, "refused 1 TooLong at 1048576 in 2\n", "")
}

/// Whether a text is too long from its 1,048,577th byte on, whether it is UTF-8 or not.
fn knows_the_longest(alloc: Global) -> Result<bool, Fail> {
    let lines = vec![in alloc; b'\n'; 1_048_577]?;
    let no_text = vec![in alloc; 0xFFu8; 3_000_000]?;
    Ok(
        reports(alloc, Entry::Bytes(&lines[1..]), 0, "", "")?
            && is_too_long(alloc, Entry::Bytes(&lines))?
            && is_too_long(alloc, Entry::Bytes(&no_text))?,
    )
}

#[test]
fn a_file_is_a_text_up_to_the_limit(rt: HostRuntime) -> Result<(), Fail> {
    assert!(rt; knows_the_longest(rt.alloc())?);
    Ok(())
}

/// Whether a file that is too long is told as one that can't be read, where it fails behind the
/// limit, or takes one read more than may be.
fn reads_to_the_end(alloc: Global) -> Result<bool, Fail> {
    let lines = vec![in alloc; b'\n'; 65_535 * 17 + 1]?;
    let used_up = "refused 21 TurnsUsed\n";
    Ok(
        reports(alloc, Entry::Cut(&lines), 4, "", "device fault\n")?
            && is_too_long(alloc, Entry::Slow(&lines[1..], 17))?
            && reports(alloc, Entry::Slow(&lines, 17), 1, used_up, "")?,
    )
}

#[test]
fn a_long_file_is_read_to_its_end(rt: HostRuntime) -> Result<(), Fail> {
    assert!(rt; reads_to_the_end(rt.alloc())?);
    Ok(())
}

/// A text of so many fields.
pub fn fields(alloc: Global, count: u32) -> Result<String, Fail> {
    let mut text = String::new(alloc);
    for k in 0..count {
        let line = format!(in alloc; "a{k}: 1\n")?;
        text.push_str(line.as_str())?;
    }
    Ok(text)
}

/// Whether the state of so many fields is longer than a text may be, and is taken whole.
fn takes_a_long_state(alloc: Global, count: u32) -> Result<bool, Fail> {
    let text = fields(alloc, count)?;
    let texts = [("text", Entry::Bytes(text.as_bytes()))];
    let state = ran_over(alloc, &texts, &["state", "text"], b"")?.out;
    let states = [("state", Entry::Bytes(&state))];
    let again = ran_over(alloc, &states, &["state", "state"], b"")?;
    Ok(state.len() > 1_048_577 && again.is(0, &state, b""))
}

#[test]
fn a_state_may_be_longer_than_a_text(rt: HostRuntime) -> Result<(), Fail> {
    assert!(rt; takes_a_long_state(rt.alloc(), 16_000)?);
    Ok(())
}
