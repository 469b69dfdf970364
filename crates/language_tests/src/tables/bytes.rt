//! Known states, and others that are made of their bytes.
use crate::tables::plain::Made;
use cue_lattice::Kind;
use std::alloc::Global;

/// The state with no row.
const EMPTY: &[u8] = &[0xfe, 0x43, 0x55, 0x45, 2, 0, 0, 0, 0, 0, 0, 0, 0];

/// The state of `a: 1`: an open struct at the root, and the integer 1.
const INTEGER: &[u8] = &[
    0xfe, 0x43, 0x55, 0x45, 2, 0, 0, 0, 0, 0, 0, 0, 2, 0, 0, 2, 0, 1, 0, 0, 1, 0x61, 2, 1, 0, 0, 0,
    0, 0, 0, 0, 0, 1, 0, 0, 0, 0, 0, 0, 0, 1, 0, 0, 0, 0, 0, 0, 0, 1, 0, 0, 0, 0, 0, 0, 0, 0, 0, 0,
    0, 0, 0, 0, 0, 0, 0, 1, 0, 0, 0, 0, 0, 0, 0, 1, 0, 0, 0, 0, 0, 0, 0, 1, 0, 0, 0, 0, 0, 0, 0, 0,
    0,
];

/// The state of `port: 443`.
const PORT: &[u8] = &[
    0xfe, 0x43, 0x55, 0x45, 2, 0, 0, 0, 0, 0, 0, 0, 2, 0, 0, 2, 0, 1, 0, 0, 4, 0x70, 0x6f, 0x72,
    0x74, 2, 1, 0, 0, 0, 0, 0, 0, 0, 0, 1, 0, 0, 0, 0, 0, 0, 1, 0xbb, 0, 0, 0, 0, 0, 0, 1, 0xbb, 0,
    0, 0, 0, 0, 0, 0, 0, 0, 0, 0, 0, 0, 0, 0, 0, 0, 1, 0, 0, 0, 0, 0, 0, 1, 0xbb, 0, 0, 0, 0, 0, 0,
    1, 0xbb, 0, 0, 0, 0, 0, 0, 0, 0, 0,
];

/// The state of a conflict at `a`: an open struct at the root, and nothing.
const CONFLICT: &[u8] = &[
    0xfe, 0x43, 0x55, 0x45, 2, 0, 0, 0, 0, 0, 0, 0, 2, 0, 0, 2, 0, 1, 0, 0, 1, 0x61, 2, 4, 0, 0, 0,
    0, 0, 0, 0, 0, 0, 0,
];

/// The state of a list of at least 65,536 elements at `l`.
const LIST: &[u8] = &[
    0xfe, 0x43, 0x55, 0x45, 2, 0, 0, 0, 0, 0, 0, 0, 2, 0, 0, 2, 0, 1, 0, 0, 1, 0x6c, 2, 3, 0, 1, 0,
    0, 0, 0, 0, 0, 0,
];

/// The state of `a: {b: "xyz"}`.
const NESTED: &[u8] = &[
    0xfe, 0x43, 0x55, 0x45, 2, 0, 0, 0, 0, 0, 0, 0, 3, 0, 0, 2, 0, 1, 0, 0, 1, 0x61, 2, 2, 0, 2, 0,
    0, 1, 0x61, 0, 0, 1, 0x62, 2, 1, 0, 0, 0, 0, 0, 0, 0, 0, 0, 0, 0, 0, 0, 0, 0, 0, 0, 1, 0, 3,
    0x78, 0x79, 0x7a, 0, 0, 0, 0, 0, 0, 0, 0, 0, 0, 0, 0, 0, 0, 0, 0, 0, 1, 0, 3, 0x78, 0x79, 0x7a,
];

/// The state of `l: [...int]`.
const INTEGERS: &[u8] = &[
    0xfe, 0x43, 0x55, 0x45, 2, 0, 0, 0, 0, 0, 0, 0, 3, 0, 0, 2, 0, 1, 0, 0, 1, 0x6c, 2, 3, 0, 0, 0,
    0, 0, 0, 0, 0, 0, 2, 0, 0, 1, 0x6c, 2, 0, 1, 0, 0, 0, 0, 0, 0, 0, 0, 1, 0x80, 0, 0, 0, 0, 0, 0,
    0, 0x7f, 0xff, 0xff, 0xff, 0xff, 0xff, 0xff, 0xff, 0, 0, 0, 0, 0, 0, 0, 0, 0, 0, 0, 0, 0, 0, 0,
    0, 0, 1, 0x80, 0, 0, 0, 0, 0, 0, 0, 0x7f, 0xff, 0xff, 0xff, 0xff, 0xff, 0xff, 0xff, 0, 0, 0, 0,
    0, 0, 0, 0, 0,
];

/// The state of a list of at least 65,536 elements at `l`, in the first version.
const FIRST_LIST: &[u8] = &[
    0xfe, 0x43, 0x55, 0x45, 1, 0, 0, 0, 0, 0, 0, 0, 2, 0, 0, 2, 0, 1, 0, 0, 1, 0x6c, 2, 3, 0, 1, 0,
    0, 0,
];

/// The state of structs at the root, `a`, `a.b`, `a.c` and `d`.
const BUSH: &[u8] = &[
    0xfe, 0x43, 0x55, 0x45, 2, 0, 0, 0, 0, 0, 0, 0, 5, 0, 0, 2, 0, 1, 0, 0, 1, 0x61, 2, 2, 0, 2, 0,
    0, 1, 0x61, 0, 0, 1, 0x62, 2, 2, 0, 2, 0, 0, 1, 0x61, 0, 0, 1, 0x63, 2, 2, 0, 1, 0, 0, 1, 0x64,
    2, 2, 0,
];

/// A state that is known.
pub enum Known {
    Empty,
    Integer,
    Port,
    Conflict,
    List,
    Nested,
    Integers,
    FirstList,
    Bush,
}

/// The bytes of a known state. Nothing is promised of them, so that they stand in the proof of this
/// function alone.
pub fn bytes_of(known: &Known) -> &'static [u8] {
    match known {
        Known::Empty => EMPTY,
        Known::Integer => INTEGER,
        Known::Port => PORT,
        Known::Conflict => CONFLICT,
        Known::List => LIST,
        Known::Nested => NESTED,
        Known::Integers => INTEGERS,
        Known::FirstList => FIRST_LIST,
        Known::Bush => BUSH,
    }
}

/// Some bytes of a state.
pub enum Part {
    /// All bytes of a known state.
    All(Known),
    /// The bytes of a known state from a place up to another one, or up to its end.
    Of(Known, usize, usize),
    /// These bytes.
    Bytes(&'static [u8]),
    /// The rows of structs, so many one in the other, each at `a` in the one before.
    Structs(u8),
    /// So many letters `a`.
    Letters(usize),
}

/// A state: its parts one behind the other, and the places at which it has other bytes, with these.
pub struct State(pub &'static [Part], pub &'static [(usize, u8)]);

/// How many bytes stand before the rows.
pub const HEAD: usize = 13;

/// How many bytes stand before the second row of states whose first row is an open struct.
pub const SECOND: usize = 17;

/// Behind the last byte of any known state.
pub const END: usize = usize::MAX;

/// Where a state has the byte of its version.
pub const VERSION: usize = 4;

/// Where a state has the lowest byte of its number of rows.
pub const COUNT: usize = 12;

/// What a call has made, where want of memory is told as a kind of fault.
pub fn told<T: Drop>(made: Made<T>) -> Result<T, Kind> {
    match made {
        Ok(value) => Ok(value),
        Err(_) => Err(Kind::Memory),
    }
}

/// The bytes from a place up to another one, or up to their end.
pub fn between(bytes: &[u8], from: usize, to: usize) -> &[u8] {
    match bytes.get(from..to.min(bytes.len())) {
        Some(part) => part,
        None => &[],
    }
}

/// Puts the row of a struct behind others, so many steps below the root.
fn put_struct(out: &mut Vec<u8>, level: u8) -> Made<()> {
    out.push(level)?;
    for _ in 0..level {
        out.extend_from_slice(&[0, 0, 1, 0x61])?;
    }
    out.extend_from_slice(&[2, 2, 0])?;
    Ok(())
}

/// Puts the rows of structs behind others, so many one in the other.
fn put_structs(out: &mut Vec<u8>, levels: u8) -> Made<()> {
    for level in 1..=levels {
        put_struct(out, level)?;
    }
    Ok(())
}

/// Puts letters behind other bytes.
fn put_letters(out: &mut Vec<u8>, count: usize) -> Made<()> {
    for _ in 0..count {
        out.push(0x61)?;
    }
    Ok(())
}

/// Puts bytes behind others.
fn put(out: &mut Vec<u8>, bytes: &[u8]) -> Made<()> {
    out.extend_from_slice(bytes)?;
    Ok(())
}

/// Puts a part behind others.
fn put_part(out: &mut Vec<u8>, one: &Part) -> Made<()> {
    match one {
        Part::All(known) => put(out, bytes_of(known)),
        Part::Of(known, from, to) => put(out, between(bytes_of(known), *from, *to)),
        Part::Bytes(bytes) => put(out, bytes),
        Part::Structs(levels) => put_structs(out, *levels),
        Part::Letters(count) => put_letters(out, *count),
    }
}

/// Puts parts one behind the other.
fn put_parts(out: &mut Vec<u8>, parts: &[Part]) -> Made<()> {
    for one in parts {
        put_part(out, one)?;
    }
    Ok(())
}

/// Puts other bytes at some places.
fn alter(bytes: &mut [u8], altered: &[(usize, u8)]) {
    for (at, byte) in altered {
        if let Some(own) = bytes.get_mut(*at) {
            *own = *byte;
        }
    }
}

/// The bytes of these parts, with others at some places.
fn joined(alloc: Global, parts: &[Part], altered: &[(usize, u8)]) -> Made<Vec<u8>> {
    let mut bytes = Vec::new(alloc);
    put_parts(&mut bytes, parts)?;
    alter(&mut bytes, altered);
    Ok(bytes)
}

/// The bytes of a state.
pub fn made(alloc: Global, state: &State) -> Result<Vec<u8>, Kind> {
    told(joined(alloc, state.0, state.1))
}

/// The state of `a: 1` with another byte at a place.
pub fn other(alloc: Global, at: usize, byte: u8) -> Result<Vec<u8>, Kind> {
    told(joined(alloc, &[Part::All(Known::Integer)], &[(at, byte)]))
}
