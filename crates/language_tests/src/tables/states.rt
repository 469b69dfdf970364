//! What state bytes come to.
use crate::tables::bytes::Known::{
    Conflict, Empty, FirstList, Integer, Integers, List, Nested, Port,
};
use crate::tables::bytes::Part::{All, Bytes, Of, Structs};
use crate::tables::bytes::{
    COUNT, END, HEAD, Known, SECOND, State, VERSION, between, bytes_of, made, other, told,
};
use crate::tables::pieces::{are_refused, are_same, is_read_in_pieces};
use crate::tables::states::Told::{As, Kept, Refused};
use cue_codec::{decode, encode, size};
use cue_lattice::Kind;
use cue_table::Table;
use std::alloc::Global;
use std::test::Fail;

/// Where the state of `a: 1` has the level and the kind of its root.
const LEVEL: usize = 14;

const KIND: usize = 15;

/// Where the state of `a: 1` has its label.
const LABEL: usize = 21;

/// Where the state of `a: 1` has the level of its integer.
const LEVEL_BELOW: usize = 22;

/// The row of a struct in which only `b`, `c`, `dd` and `e` may stand.
const LABELS: &[u8] = &[
    2, 2, 1, 0, 0, 0, 0, 0, 0, 0, 4, 0, 1, 0x62, 0, 1, 0x63, 0, 2, 0x64, 0x64, 0, 1, 0x65,
];

/// Where the state of `a: 1` has the lowest bytes of the least and the greatest of its usual
/// integers.
const FIRST: usize = 74;

const LAST: usize = 82;

/// Where the state of a list has the bytes of its least length that count 65,536 and one.
const LEAST_HIGH: usize = 25;

const LEAST: usize = 27;

/// Where the state of a list has the lowest byte of the index from which on its elements are alike.
const FIXED: usize = 32;

/// How many bytes the state of `l: [...int]` has up to the row of its rest.
const REST: usize = 33;

/// How many bytes the state of `l: [...int]` has up to what its rest may be.
const REST_ROW: usize = 39;

/// The steps to the first element of the list at `l`.
const TO_ELEMENT: &[u8] = &[2, 0, 0, 1, 0x6c, 1, 0, 0, 0, 0];

/// The steps to the rest of the list at `l`.
const TO_REST: &[u8] = &[2, 0, 0, 1, 0x6c, 2];

/// The row of an element that nothing may be, and the same in the first version.
const NOTHING: &[u8] = &[0, 4, 0, 0, 0, 0, 0, 0, 0, 0, 0, 0];

const FIRST_NOTHING: &[u8] = &[0, 4, 0, 0, 0, 0, 0, 0];

/// What bytes come to.
enum Told {
    /// A table that is written as they are.
    Kept,
    /// A table that is written so.
    As(State),
    /// A fault of this kind.
    Refused(Kind),
}

/// A state, with what it shows and what it comes to.
type Case = (&'static str, State, Told);

/// What states come to.
const CASES: &[Case] = &[
    ("no row", State(&[All(Empty)], &[]), Kept),
    ("an integer", State(&[All(Integer)], &[]), Kept),
    ("a longer label", State(&[All(Port)], &[]), Kept),
    ("a conflict", State(&[All(Conflict)], &[]), Kept),
    ("a list", State(&[All(List)], &[]), Kept),
    ("a text in a struct", State(&[All(Nested)], &[]), Kept),
    ("a rest", State(&[All(Integers)], &[]), Kept),
    (
        "listed labels",
        State(&[Of(Integer, 0, LEVEL_BELOW), Bytes(LABELS)], &[]),
        Kept,
    ),
    (
        "another version",
        State(&[All(Integer)], &[(VERSION, 9)]),
        Refused(Kind::Version),
    ),
    (
        "its mark alone",
        State(&[Bytes(&[0xfe, 0x43, 0x55, 0x45, 3])], &[]),
        Refused(Kind::Version),
    ),
    (
        "another mark",
        State(&[Bytes(&[0xfe, 0x43, 0x55, 0x44, 3])], &[]),
        Refused(Kind::NotState),
    ),
    (
        "the mark alone",
        State(&[Bytes(&[0xfe, 0x43, 0x55, 0x45, 2])], &[]),
        Refused(Kind::NotState),
    ),
    ("no byte", State(&[], &[]), Refused(Kind::NotState)),
    (
        "a row more",
        State(&[All(Integer)], &[(COUNT, 1)]),
        Refused(Kind::NotState),
    ),
    (
        "a row less",
        State(&[All(Integer)], &[(COUNT, 3)]),
        Refused(Kind::NotState),
    ),
    (
        "the greatest count",
        State(
            &[Bytes(&[
                0xfe, 0x43, 0x55, 0x45, 2, 255, 255, 255, 255, 255, 255, 255, 255,
            ])],
            &[],
        ),
        Refused(Kind::NotState),
    ),
    (
        "a byte is left",
        State(&[All(Integer), Bytes(&[0])], &[]),
        Refused(Kind::NotState),
    ),
    (
        "bytes are left",
        State(&[All(Integer), Bytes(&[0, 1, 2])], &[]),
        Refused(Kind::NotState),
    ),
    (
        "rows out of order",
        State(
            &[
                Of(Integer, 0, HEAD),
                Of(Integer, SECOND, END),
                Of(Integer, HEAD, SECOND),
            ],
            &[],
        ),
        Refused(Kind::NotState),
    ),
    (
        "a row twice",
        State(&[All(Integer), Of(Integer, SECOND, END)], &[(COUNT, 3)]),
        Refused(Kind::NotState),
    ),
    (
        "a free row",
        State(
            &[All(Integer), Bytes(&[1, 0, 0, 1, 0x62, 0, 0])],
            &[(COUNT, 3)],
        ),
        Refused(Kind::NotState),
    ),
    (
        "a cut in the second row",
        State(&[Of(Integer, 0, 60)], &[]),
        Refused(Kind::NotState),
    ),
    (
        "65,537 elements",
        State(&[All(List)], &[(LEAST, 1)]),
        Refused(Kind::NotState),
    ),
    (
        "an element of its own",
        State(
            &[All(List), Bytes(TO_ELEMENT), Bytes(NOTHING)],
            &[(COUNT, 3), (FIXED, 1)],
        ),
        Kept,
    ),
    (
        "a list of any length",
        State(&[All(List)], &[(LEAST_HIGH, 0)]),
        Kept,
    ),
    (
        "an element without room",
        State(
            &[All(List), Bytes(TO_ELEMENT), Bytes(NOTHING)],
            &[(LEAST_HIGH, 0), (COUNT, 3), (FIXED, 1)],
        ),
        Refused(Kind::NotState),
    ),
    (
        "an element that lacks",
        State(&[All(List)], &[(FIXED, 1)]),
        Refused(Kind::NotState),
    ),
    (
        "an element that is alike",
        State(
            &[All(List), Bytes(TO_ELEMENT), Bytes(NOTHING)],
            &[(COUNT, 3), (FIXED, 0)],
        ),
        Refused(Kind::NotState),
    ),
    (
        "a second element that lacks",
        State(
            &[All(List), Bytes(TO_ELEMENT), Bytes(NOTHING)],
            &[(COUNT, 3), (FIXED, 2)],
        ),
        Refused(Kind::NotState),
    ),
    (
        "another label",
        State(&[All(Integer)], &[(LABEL, 0x62)]),
        Kept,
    ),
    (
        "a label that is no UTF-8",
        State(&[All(Integer)], &[(LABEL, 0xff)]),
        Refused(Kind::NotState),
    ),
    (
        "a default outside of the value",
        State(&[All(Integer)], &[(FIRST, 2), (LAST, 2)]),
        Refused(Kind::NotState),
    ),
    (
        "the root as it is",
        State(&[All(Integer)], &[(LEVEL, 0), (KIND, 2)]),
        Kept,
    ),
    (
        "a root that is given",
        State(&[All(Integer)], &[(LEVEL, 2), (KIND, 2)]),
        Refused(Kind::NotState),
    ),
    (
        "a root that is no struct",
        State(&[All(Integer)], &[(LEVEL, 0), (KIND, 0)]),
        Refused(Kind::NotState),
    ),
    (
        "a rest behind the least length",
        State(&[All(Integers)], &[(FIXED, 1)]),
        Refused(Kind::NotState),
    ),
    (
        "a rest in the first version",
        State(&[All(Integers)], &[(VERSION, 1)]),
        Refused(Kind::NotState),
    ),
    (
        "a last element like the rest",
        State(
            &[
                Of(Integers, 0, REST),
                Bytes(TO_ELEMENT),
                Of(Integers, REST_ROW, END),
                Of(Integers, REST, END),
            ],
            &[(COUNT, 4), (LEAST, 1), (FIXED, 1)],
        ),
        Refused(Kind::NotState),
    ),
    (
        "a list in the first version",
        State(&[All(FirstList)], &[]),
        As(State(&[All(List)], &[])),
    ),
    (
        "an integer in the first version",
        State(&[All(Integer)], &[(VERSION, 1)]),
        As(State(&[All(Integer)], &[])),
    ),
    (
        "an element in the first version",
        State(
            &[All(FirstList), Bytes(TO_ELEMENT), Bytes(FIRST_NOTHING)],
            &[(COUNT, 3)],
        ),
        As(State(
            &[All(List), Bytes(TO_ELEMENT), Bytes(NOTHING)],
            &[(COUNT, 3), (FIXED, 1)],
        )),
    ),
    (
        "a step to the rest in the first version",
        State(
            &[All(FirstList), Bytes(TO_REST), Bytes(FIRST_NOTHING)],
            &[(COUNT, 3)],
        ),
        Refused(Kind::NotState),
    ),
    (
        "a cut in the row of a list",
        State(&[Of(Integers, 0, 30)], &[]),
        Refused(Kind::NotState),
    ),
];

/// What states come to. Nothing is promised of them, so that they stand in the proof of this
/// function alone.
fn cases() -> &'static [Case] {
    CASES
}

/// What states with long paths come to: these take too long to be cut at each place.
const DEEP: &[Case] = &[
    (
        "paths of 64 steps",
        State(&[Of(Integer, 0, SECOND), Structs(64)], &[(COUNT, 65)]),
        Kept,
    ),
    (
        "paths of 65 steps",
        State(&[Of(Integer, 0, SECOND), Structs(65)], &[(COUNT, 66)]),
        Refused(Kind::NotState),
    ),
];

/// The bytes of the table that these bytes are those of, or why they are no state.
fn rewritten(alloc: Global, bytes: &[u8]) -> Result<Vec<u8>, Kind> {
    let table = decode(alloc, bytes)?;
    told(encode(alloc, &table))
}

/// Whether the bytes are those of a table, which is written as these others.
fn is_written_as(alloc: Global, bytes: &[u8], others: &[u8]) -> Result<bool, Kind> {
    Ok(rewritten(alloc, bytes)?.as_slice() == others)
}

/// Whether the bytes come to this.
fn comes_to(alloc: Global, bytes: &[u8], told: &Told) -> Result<bool, Kind> {
    match told {
        Kept => is_written_as(alloc, bytes, bytes),
        As(state) => is_written_as(alloc, bytes, &made(alloc, state)?),
        Refused(why) => are_refused(alloc, bytes, *why),
    }
}

/// Whether the state comes to this.
fn state_comes_to(alloc: Global, state: &State, told: &Told) -> Result<bool, Kind> {
    comes_to(alloc, &made(alloc, state)?, told)
}

#[test]
fn states_are_kept_or_refused(rt: HostRuntime) -> Result<(), Fail> {
    for (shows, state, told) in cases() {
        assert!(rt; state_comes_to(rt.alloc(), state, told)?, "{shows}");
    }
    Ok(())
}

#[test]
fn paths_have_at_most_64_steps(rt: HostRuntime) -> Result<(), Fail> {
    for (shows, state, told) in DEEP {
        assert!(rt; state_comes_to(rt.alloc(), state, told)?, "{shows}");
    }
    Ok(())
}

#[test]
fn states_are_read_wherever_they_are_cut(rt: HostRuntime) -> Result<(), Fail> {
    for (shows, state, _) in cases() {
        assert!(rt; is_read_in_pieces(rt.alloc(), state)?, "{shows}");
    }
    Ok(())
}

/// How many bytes the states of known tables take.
const SIZES: &[(Known, u64)] = &[
    (Empty, 13),
    (Integer, 92),
    (Port, 95),
    (Conflict, 34),
    (List, 33),
    (Nested, 82),
    (Integers, 109),
];

/// Whether the state of the table that these bytes tell takes so many bytes.
fn has_size(alloc: Global, bytes: &[u8], count: u64) -> Result<bool, Kind> {
    Ok(size(&decode(alloc, bytes)?) == count)
}

/// How many bytes the state of a new table takes.
fn new_size(alloc: Global) -> u64 {
    size(&Table::new(alloc))
}

#[test]
fn the_size_is_told_before_a_state_is_written(rt: HostRuntime) -> Result<(), Fail> {
    assert_eq!(rt; new_size(rt.alloc()), 13);
    for (known, count) in SIZES {
        assert!(rt; has_size(rt.alloc(), bytes_of(known), *count)?, "{count}");
    }
    Ok(())
}

#[test]
fn equal_states_are_equal_tables(rt: HostRuntime) -> Result<(), Fail> {
    let alloc = rt.alloc();
    assert!(rt; are_same(alloc, bytes_of(&Integer), bytes_of(&Integer))?);
    assert!(rt; !are_same(alloc, bytes_of(&Integer), bytes_of(&Conflict))?);
    Ok(())
}

#[test]
fn each_cut_is_no_state(rt: HostRuntime) -> Result<(), Fail> {
    for cut in 0..bytes_of(&Integer).len() {
        let bytes = between(bytes_of(&Integer), 0, cut);
        assert!(rt;
            are_refused(rt.alloc(), bytes, Kind::NotState)?,
            "cut at {cut}"
        );
    }
    Ok(())
}

/// The bits of a byte.
const BITS: &[u8] = &[1, 2, 4, 8, 16, 32, 64, 128];

/// Whether the bytes are no state, or else kept.
fn is_exact(alloc: Global, bytes: &[u8]) -> Result<bool, Kind> {
    match is_written_as(alloc, bytes, bytes) {
        Err(Kind::NotState | Kind::Version) => Ok(true),
        kept => kept,
    }
}

/// Whether the state of `a: 1` with another byte at a place is no state, or else kept.
fn other_is_exact(alloc: Global, at: usize, byte: u8) -> Result<bool, Kind> {
    is_exact(alloc, &other(alloc, at, byte)?)
}

#[test]
fn each_turned_bit_is_told(rt: HostRuntime) -> Result<(), Fail> {
    for (at, byte) in bytes_of(&Integer).iter().enumerate() {
        for bit in BITS {
            assert!(rt;
                other_is_exact(rt.alloc(), at, byte ^ *bit)?,
                "bit {bit} of byte {at}"
            );
        }
    }
    Ok(())
}
