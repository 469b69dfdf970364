//! Texts, and the words of refusals.
use crate::sets::made::Made;
use cue_lattice::{Form, Kind, Memory, Refusal, TEXT_LIMIT, Text};
use std::alloc::Global;
use std::cmp::Ordering;
use std::mem::size_of;
use std::test::Fail;

/// A text, the longest that is kept in itself, and one that copies share.
const TEXTS: [&str; 3] = ["é", "twenty-two bytes long.", "twenty-three bytes long"];

/// Whether the string that was made is this one.
fn is_string(string: Made<String>, expected: &str) -> Made<bool> {
    Ok(string?.as_str() == expected)
}

/// Whether a text and a copy of it have these bytes.
fn are_same(text: &Text, copied: &Text, expected: &str) -> bool {
    copied.same(text)
        && copied.compare(text) == Ordering::Equal
        && copied.as_bytes() == expected.as_bytes()
        && text.as_str() == expected
}

/// Whether a text and a copy of it have these bytes, and give a string of them back.
fn is_kept(alloc: Global, text: Made<Text>, expected: &str) -> Made<bool> {
    let text = text?;
    let copied = text.copy(alloc)?;
    let is_so = are_same(&text, &copied, expected);
    let is_copied = is_string(copied.into_string(alloc), expected)?;
    Ok(is_string(text.into_string(alloc), expected)? && is_copied && is_so)
}

/// The text of a string.
fn taken_over(alloc: Global, text: &str) -> Made<Text> {
    Text::new(alloc, String::from_str(alloc, text)?)
}

#[test]
fn texts_keep_their_bytes(rt: HostRuntime) -> Result<(), Fail> {
    let alloc = rt.alloc();
    assert_eq!(rt; size_of::<Text>(), 24);
    for text in TEXTS {
        assert!(rt;
            is_kept(alloc, Text::from_str(alloc, text), text)?,
            "{text}"
        );
        assert!(rt; is_kept(alloc, taken_over(alloc, text), text)?, "{text}");
    }
    Ok(())
}

/// What is printed of a text, a form and want of memory.
fn printed(alloc: Global, text: Made<Text>) -> Made<String> {
    let text = text?;
    let memory = Memory::too_many(1, u64::MAX);
    Ok(format!(in alloc; "{text} {text:?} {} {memory}", Form::TypedRest)?)
}

#[test]
fn printed_words(rt: HostRuntime) -> Result<(), Fail> {
    let alloc = rt.alloc();
    let told = printed(alloc, Text::from_str(alloc, "é"));
    assert!(rt; is_string(told, "é \"é\" TypedRest out of memory")?);
    Ok(())
}

#[test]
fn numbers_and_names(rt: HostRuntime) {
    assert_eq!(rt; Kind::LeftOut(Form::Call).number(), 9);
    assert_eq!(rt; Kind::LeftOut(Form::Clause).name(), "LeftOut");
    assert_eq!(rt; Kind::name_of(25), Some("Failed"));
    let long = Refusal::at(Kind::TooLong, TEXT_LIMIT);
    assert!(rt; long.kind == Kind::TooLong && long.place == 1_048_576);
    let refusal = Refusal::from(Memory::too_many(u64::MAX, 1));
    assert!(rt; refusal.kind == Kind::Memory && refusal.place == 0);
}
