//! State bytes that somebody made up, handed to sites.
use crate::hostile::sites::{are_same, has_state, refusal, report, site_of, taken};
use cue_replica::{Kind, Memory, Refusal};
use std::alloc::Global;
use std::test::Fail;

/// The state of `a: 1`.
const ONE: &[u8] = &[
    0xFE, 0x43, 0x55, 0x45, 2, 0, 0, 0, 0, 0, 0, 0, 2, // two rows
    0, 0, 2, 0, // the root
    1, 0, 0, 1, 0x61, 2, 1, // a scalar at the label a
    0, 0, 0, 0, 0, 0, 0, 0, 1, // a set of one piece
    0, 0, 0, 0, 0, 0, 0, 1, 0, 0, 0, 0, 0, 0, 0, 1, // from 1 to 1
    0, 0, 0, 0, 0, 0, 0, 0, 0, // no text
    0, 0, 0, 0, 0, 0, 0, 0, 1, // the usual set is the same
    0, 0, 0, 0, 0, 0, 0, 1, 0, 0, 0, 0, 0, 0, 0, 1, //
    0, 0, 0, 0, 0, 0, 0, 0, 0,
];

/// Where the state of `a: 1` counts something, and in how many bytes: the rows, the steps of the
/// path, the bytes of the label, and the pieces and the texts of both sets.
const COUNTS: &[(usize, usize)] = &[(5, 8), (17, 1), (19, 2), (25, 8), (50, 8), (59, 8), (84, 8)];

/// The front of a state whose struct at `a` lists the labels that are allowed.
const LABELS: &[u8] = &[
    0xFE, 0x43, 0x55, 0x45, 2, 0, 0, 0, 0, 0, 0, 0, 2, // two rows
    0, 0, 2, 0, // the root
    1, 0, 0, 1, 0x61, 2, 2, 1, // a struct with a set of labels at the label a
];

/// The bits of a byte.
const BITS: &[u8] = &[1, 2, 4, 8, 16, 32, 64, 128];

/// The state of `a: 1` with other bytes at a place.
fn altered(alloc: Global, at: usize, other: &[u8]) -> Result<Vec<u8>, Memory> {
    let mut bytes = Vec::from_slice(alloc, ONE)?;
    for (place, byte) in bytes.iter_mut().skip(at).zip(other) {
        *place = *byte;
    }
    Ok(bytes)
}

/// Whether a site refuses these bytes for one of these reasons, and keeps what it had.
fn spares(alloc: Global, bytes: &[u8], reasons: &[Kind]) -> Result<bool, Refusal> {
    let before = site_of(alloc, "b: int\n")?;
    let mut kept = before.copy(alloc)?;
    match refusal(&mut kept, bytes) {
        Some(kind) => Ok(reasons.contains(&kind) && are_same(&kept, &before)),
        None => Ok(false),
    }
}

/// Whether a new site that takes these bytes writes them again.
fn keeps(alloc: Global, bytes: &[u8]) -> Result<bool, Refusal> {
    let site = taken(alloc, bytes)?;
    Ok(has_state(alloc, &site, bytes)?)
}

/// Whether a site refuses these bytes and keeps what it had, or takes and writes just these.
fn is_told(alloc: Global, bytes: &[u8]) -> Result<bool, Refusal> {
    Ok(spares(alloc, bytes, &[Kind::NotState, Kind::Version])? || keeps(alloc, bytes)?)
}

/// Whether [`is_told`] holds of the state of `a: 1` with any one bit of that byte turned.
fn tells_each_bit(alloc: Global, at: usize, byte: u8) -> Result<bool, Refusal> {
    for bit in BITS {
        let turned = altered(alloc, at, &[byte ^ *bit])?;
        if !is_told(alloc, &turned)? {
            return Ok(false);
        }
    }
    Ok(true)
}

#[test]
fn a_turned_bit_changes_no_site(rt: HostRuntime) -> Result<(), Fail> {
    for (at, byte) in ONE.iter().enumerate() {
        assert!(rt;
            tells_each_bit(rt.alloc(), at, *byte)?,
            "a bit of byte {at}"
        );
    }
    Ok(())
}

/// The state of `a: 1` where one count is the greatest that fits.
fn overcounted(alloc: Global, at: usize, width: usize) -> Result<Vec<u8>, Memory> {
    let huge = Vec::from_elem(alloc, 0xFFu8, width)?;
    altered(alloc, at, &huge)
}

/// The front of a state, and a count behind it.
fn extended(alloc: Global, front: &[u8], count: &[u8]) -> Result<Vec<u8>, Memory> {
    let mut bytes = Vec::from_slice(alloc, front)?;
    bytes.extend_from_slice(count)?;
    Ok(bytes)
}

/// Whether a site refuses the state of `a: 1` where one count is the greatest that fits.
fn spares_count(alloc: Global, at: usize, width: usize) -> Result<bool, Refusal> {
    let bytes = overcounted(alloc, at, width)?;
    spares(alloc, &bytes, &[Kind::NotState])
}

/// Whether a site refuses the front of a state and this count behind it.
fn spares_front(alloc: Global, front: &[u8], count: &[u8]) -> Result<bool, Refusal> {
    let bytes = extended(alloc, front, count)?;
    spares(alloc, &bytes, &[Kind::NotState])
}

#[test]
fn counts_that_are_too_great(rt: HostRuntime) -> Result<(), Fail> {
    let alloc = rt.alloc();
    for (at, width) in COUNTS {
        assert!(rt; spares_count(alloc, *at, *width)?, "the count at {at}");
    }
    assert!(rt; spares_front(alloc, &ONE[..5], &[0xFF; 8])?);
    assert!(rt; spares_front(alloc, LABELS, &[0xFF; 8])?);
    assert!(rt; spares_front(alloc, LABELS, &[0, 0, 0, 0, 0, 0, 0, 1, 0xFF, 0xFF])?);
    Ok(())
}

/// The state of a list of at least 65,536 elements at `l`, of which nothing may be the first.
pub const CLASH: &[u8] = &[
    0xFE, 0x43, 0x55, 0x45, 2, 0, 0, 0, 0, 0, 0, 0, 3, // three rows
    0, 0, 2, 0, // the root
    1, 0, 0, 1, 0x6C, 2, 3, // a list at the label l
    0, 1, 0, 0, 0, 0, 0, 0, 1, // of 65,536 elements at least, alike from the second on
    2, 0, 0, 1, 0x6C, 1, 0, 0, 0, 0, 0, 4, // nothing at its element 0
    0, 0, 0, 0, 0, 0, 0, 0, 0, 0,
];

/// Whether the report of the site that these bytes make has so many lines, and begins and ends so.
fn reports(alloc: Global, count: usize, first: &str, last: &str) -> Result<bool, Refusal> {
    let site = taken(alloc, CLASH)?;
    let told = report(alloc, &site)?;
    let text = told.as_str();
    Ok(text.lines().count() == count && text.starts_with(first) && text.ends_with(last))
}

#[test]
fn the_longest_list_with_a_clash(rt: HostRuntime) -> Result<(), Fail> {
    let first = "conflict l.0 no value\nincomplete l.1 not a single value\n";
    let last = "incomplete l.65535 not a single value\n";
    assert!(rt; keeps(rt.alloc(), CLASH)?);
    assert!(rt; reports(rt.alloc(), 65_536, first, last)?);
    Ok(())
}
