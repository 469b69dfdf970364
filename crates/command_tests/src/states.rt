//! State bytes that are taken, refused and written.
use crate::runs::{answers, exports_bytes, state_of, writes};
use cue_program::FileSystem;
use std::alloc::Global;
use std::net::{Net, TcpListener, TcpStream};
use std::test::Fail;

/// The state of `a: 1`.
pub const ONE: &[u8] = &[
    0xFE, 0x43, 0x55, 0x45, 2, 0, 0, 0, 0, 0, 0, 0, 2, // two rows
    0, 0, 2, 0, // the root
    1, 0, 0, 1, 0x61, 2, 1, // a scalar at the label a
    0, 0, 0, 0, 0, 0, 0, 0, 1, // a set of one piece
    0, 0, 0, 0, 0, 0, 0, 1, 0, 0, 0, 0, 0, 0, 0, 1, // from 1 to 1
    0, 0, 0, 0, 0, 0, 0, 0, 0, // no text
    0, 0, 0, 0, 0, 0, 0, 0, 1, // the usual set is the same
    0, 0, 0, 0, 0, 0, 0, 1, 0, 0, 0, 0, 0, 0, 0, 1, //
    0, 0, 0, 0, 0, 0, 0, 0, 0,
];

/// The state that refuses nothing.
const FREE: &[u8] = &[0xFE, 0x43, 0x55, 0x45, 2, 0, 0, 0, 0, 0, 0, 0, 0];

/// The state of a label a at which nothing may stand.
const CLASH: &[u8] = &[
    0xFE, 0x43, 0x55, 0x45, 2, 0, 0, 0, 0, 0, 0, 0, 2, // two rows
    0, 0, 2, 0, // the root
    1, 0, 0, 1, 0x61, 2, 4, // nothing at the label a
    0, 0, 0, 0, 0, 0, // all labels below, and lists of any length
    0, 0, 0, 0, // whose elements are alike from the first on
];

/// The state of `a: 1` with its two rows in the other order.
fn with_rows_swapped(alloc: Global) -> Result<Vec<u8>, Fail> {
    let mut bytes = ONE[..13].to_vec(alloc)?;
    bytes.extend_from_slice(&ONE[17..])?;
    bytes.extend_from_slice(&ONE[13..17])?;
    Ok(bytes)
}

/// The state of `a: 1` with a third row, of the label b, that refuses nothing.
fn with_a_free_row(alloc: Global) -> Result<Vec<u8>, Fail> {
    let mut bytes = ONE.to_vec(alloc)?;
    bytes[12] = 3;
    bytes.extend_from_slice(&[1, 0, 0, 1, 0x62, 0, 0])?;
    Ok(bytes)
}

#[test]
fn takes_a_state(mut rt: HostRuntime) -> Result<(), Fail> {
    assert!(rt; exports_bytes(&mut rt, ONE, 0, "{\"a\":1}\n")?);
    assert!(rt; exports_bytes(&mut rt, CLASH, 2, "conflict a no value\n")?);
    Ok(())
}

#[test]
fn a_state_that_refuses_nothing_is_printed(mut rt: HostRuntime) -> Result<(), Fail> {
    assert!(rt; answers(&mut rt, &["print"], FREE, 0, "_\n", "")?);
    Ok(())
}

#[test]
fn a_state_that_refuses_nothing_has_no_rows(mut rt: HostRuntime) -> Result<(), Fail> {
    assert!(rt; writes(&mut rt, &["state"], FREE, FREE)?);
    Ok(())
}

#[test]
fn a_clash_is_kept_in_the_state(mut rt: HostRuntime) -> Result<(), Fail> {
    assert!(rt; writes(&mut rt, &["state"], b"a: 1\n---\na: 2\n", CLASH)?);
    Ok(())
}

/// Whether both texts give the same state, of so many bytes.
fn give_one_state<H>(rt: &mut H, text: &str, other: &str, length: usize) -> Result<bool, Fail>
where
    H: AllocGlobal + FileSystem + Net<Listener = TcpListener, Stream = TcpStream>,
{
    let state = state_of(rt, text)?;
    Ok(state.len() == length && writes(rt, &["state"], other.as_bytes(), &state)?)
}

#[test]
fn what_is_known_already_adds_nothing_to_a_state(mut rt: HostRuntime) -> Result<(), Fail> {
    assert!(rt; give_one_state(&mut rt, "port: 443\n", "port: int\n---\nport: 443\n", 95)?);
    Ok(())
}

/// Whether these bytes are refused as no state.
fn are_no_state<H>(rt: &mut H, bytes: &[u8]) -> Result<bool, Fail>
where
    H: AllocGlobal + FileSystem + Net<Listener = TcpListener, Stream = TcpStream>,
{
    exports_bytes(rt, bytes, 1, "refused 18 NotState at 0 in 1\n")
}

/// Whether no part of this state from its start is one.
fn cuts_are_refused<H>(rt: &mut H, state: &[u8]) -> Result<bool, Fail>
where
    H: AllocGlobal + FileSystem + Net<Listener = TcpListener, Stream = TcpStream>,
{
    for length in 1..state.len() {
        if !are_no_state(rt, &state[..length])? {
            return Ok(false);
        }
    }
    Ok(true)
}

#[test]
fn refuses_a_cut_state(mut rt: HostRuntime) -> Result<(), Fail> {
    assert!(rt; cuts_are_refused(&mut rt, ONE)?);
    Ok(())
}

/// Whether the state of `a: 1` is refused with its rows swapped, and with a free row.
fn refuses_other_rows<H>(rt: &mut H) -> Result<bool, Fail>
where
    H: AllocGlobal + FileSystem + Net<Listener = TcpListener, Stream = TcpStream>,
{
    let swapped = with_rows_swapped(rt.alloc())?;
    let free_row = with_a_free_row(rt.alloc())?;
    Ok(are_no_state(rt, &swapped)? && are_no_state(rt, &free_row)?)
}

/// The state of `a: 1`, as one of a newer version.
fn newer(alloc: Global) -> Result<Vec<u8>, Fail> {
    let mut bytes = ONE[..4].to_vec(alloc)?;
    bytes.push(9)?;
    bytes.extend_from_slice(&ONE[5..])?;
    Ok(bytes)
}

/// Whether that state is refused for its version.
fn refuses_newer<H>(rt: &mut H) -> Result<bool, Fail>
where
    H: AllocGlobal + FileSystem + Net<Listener = TcpListener, Stream = TcpStream>,
{
    let bytes = newer(rt.alloc())?;
    exports_bytes(rt, &bytes, 1, "refused 17 Version at 0 in 1\n")
}

#[test]
fn refuses_a_changed_state(mut rt: HostRuntime) -> Result<(), Fail> {
    assert!(rt; refuses_other_rows(&mut rt)?);
    assert!(rt; refuses_newer(&mut rt)?);
    Ok(())
}
