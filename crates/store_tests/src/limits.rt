//! The limits of names, of sizes and of bytes.
use crate::sites::Input::Text;
use crate::sites::{hand, new_site};
use cue_replica::{Kind, Memory, Refusal};
use std::alloc::Global;
use std::test::Fail;

/// A part, how often it stands in a text, what follows there, and why and where that is refused.
type Limit<'a> = (&'a str, usize, &'a str, Option<(Kind, u64)>);

const LIMITS: &[Limit<'static>] = &[
    ("a", 65_535, ": 1\n", None),
    ("a", 65_536, ": 1\n", Some((Kind::TextTooLong, 0))),
    ("a: 1\n", 32_767, "", None),
    ("a: 1\n", 32_768, "", Some((Kind::TooLarge, 0))),
    ("a: 1\n", 32_768, "]\n", Some((Kind::Syntax, 163_840))),
    ("\n", 1_048_576, "", None),
    ("\n", 1_048_577, "", Some((Kind::TooLong, 1_048_576))),
    ("?", 1_048_577, "", Some((Kind::TooLong, 1_048_576))),
];

/// A part so many times, and what follows.
fn repeated(alloc: Global, part: &str, count: usize, then: &str) -> Result<String, Memory> {
    let mut text = part.repeat(alloc, count)?;
    text.push_str(then)?;
    Ok(text)
}

/// What comes of a text that is handed to a new site.
fn came_of(alloc: Global, text: &str) -> Result<(), Refusal> {
    hand(&mut new_site(alloc), Text(text))
}

/// Whether a limit is as it is told.
fn holds(alloc: Global, limit: &Limit) -> Result<bool, Memory> {
    let (part, count, then, refused) = *limit;
    let text = repeated(alloc, part, count, then)?;
    let wanted = match refused {
        None => Ok(()),
        Some((kind, place)) => Err(Refusal { kind, place }),
    };
    Ok(came_of(alloc, text.as_str()) == wanted)
}

#[test]
fn texts_up_to_the_limits_and_beyond(rt: HostRuntime) -> Result<(), Fail> {
    for limit in LIMITS {
        assert!(rt; holds(rt.alloc(), limit)?);
    }
    Ok(())
}
