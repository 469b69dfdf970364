//! Each call once, where memory is there.

use super::{
    CallOutcome, cuestore_export, cuestore_merge, cuestore_new, cuestore_print, cuestore_report,
    cuestore_submit,
};

/// The state that refuses nothing.
const FREE: &[u8] = &[0xFE, 0x43, 0x55, 0x45, 2, 0, 0, 0, 0, 0, 0, 0, 0];

/// The state of `a: 1`.
const ONE: &[u8] = &[
    0xFE, 0x43, 0x55, 0x45, 2, 0, 0, 0, 0, 0, 0, 0, 2, // two rows
    0, 0, 2, 0, // the root
    1, 0, 0, 1, 0x61, 2, 1, // a scalar at the label a
    0, 0, 0, 0, 0, 0, 0, 0, 1, // a set of one piece
    0, 0, 0, 0, 0, 0, 0, 1, 0, 0, 0, 0, 0, 0, 0, 1, // from 1 to 1
    0, 0, 0, 0, 0, 0, 0, 0, 0, // no text
    0, 0, 0, 0, 0, 0, 0, 0, 1, // the usual set is the same
    0, 0, 0, 0, 0, 0, 0, 1, 0, 0, 0, 0, 0, 0, 0, 1, //
    0, 0, 0, 0, 0, 0, 0, 0, 0,
];

/// Whether a call answered just these bytes, at the front of `out`, with this status.
fn has_given(outcome: CallOutcome, out: &[u8], bytes: &[u8], status: u8) -> bool {
    outcome.length == bytes.len() && outcome.status == status && out.starts_with(bytes)
}

#[test]
fn states_are_written(rt: HostRuntime) {
    let mut out = [0u8; 100];
    let outcome = cuestore_new(rt.alloc(), &mut out);
    assert!(rt; has_given(outcome, &out, FREE, 0));
    let outcome = cuestore_submit(rt.alloc(), FREE, b"a: 1\n", &mut out);
    assert!(rt; has_given(outcome, &out, ONE, 0));
}

#[test]
fn two_states_are_one(rt: HostRuntime) {
    let mut out = [0u8; 100];
    let outcome = cuestore_merge(rt.alloc(), FREE, ONE, &mut out);
    assert!(rt; has_given(outcome, &out, ONE, 0));
}

#[test]
fn a_state_is_exported_and_printed(rt: HostRuntime) {
    let mut out = [0u8; 100];
    let outcome = cuestore_export(rt.alloc(), ONE, &mut out);
    assert!(rt; has_given(outcome, &out, b"{\"a\":1}", 0));
    let outcome = cuestore_print(rt.alloc(), ONE, &mut out);
    assert!(rt; has_given(outcome, &out, b"\"a\": 1\n", 0));
}

#[test]
fn what_a_state_lacks_is_reported(rt: HostRuntime) {
    let mut out = [0u8; 100];
    let outcome = cuestore_report(rt.alloc(), FREE, &mut out);
    assert!(rt; has_given(outcome, &out, b"incomplete . not a single value\n", 3));
}
