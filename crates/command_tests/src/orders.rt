//! Sites that take the same inputs in another order, again, or by way of other sites.
use crate::disk::Entry;
use crate::files::ran_over;
use crate::runs::{Run, exports_bytes, state_of};
use cue_program::FileSystem;
use std::alloc::Global;
use std::net::{Net, TcpListener, TcpStream};
use std::test::Fail;

/// What a site prints that takes a text and a state.
fn printed_of<'a>(alloc: Global, text: &'a [u8], state: &'a [u8]) -> Result<Run, Fail> {
    let files = [("text", Entry::Bytes(text)), ("state", Entry::Bytes(state))];
    ran_over(alloc, &files, &["print", "text", "state"], b"")
}

/// Whether a site that takes a text, and the state of a site that took another one, prints this.
fn prints_with_the_other<H>(rt: &mut H, text: &str, other: &str, out: &str) -> Result<bool, Fail>
where
    H: AllocGlobal + FileSystem + Net<Listener = TcpListener, Stream = TcpStream>,
{
    let state = state_of(rt, other)?;
    let run = printed_of(rt.alloc(), text.as_bytes(), &state)?;
    Ok(run.is(0, out.as_bytes(), b""))
}

#[test]
fn two_sites_that_take_each_other_print_the_same(mut rt: HostRuntime) -> Result<(), Fail> {
    let low = "a: >=0 & <=7\n";
    let high = "a: >=3 & <=10\n";
    assert!(rt; prints_with_the_other(&mut rt, low, high, "\"a\": >=3 & <=7\n")?);
    assert!(rt; prints_with_the_other(&mut rt, high, low, "\"a\": >=3 & <=7\n")?);
    Ok(())
}

/// The run of a site on what three sites took, and on the states that each sent after its first two
/// texts.
fn ran_on_sent(alloc: Global, states: [&[u8]; 3], words: &[&str]) -> Result<Run, Fail> {
    let [first, second, third] = states;
    let files = [
        ("a0", Entry::Bytes(b"a: >=0\n")),
        ("a9", Entry::Bytes(b"a: <=9\n")),
        ("b1", Entry::Bytes(b"b: *1 | 2\n")),
        ("b", Entry::Bytes(b"b: int\n")),
        ("c", Entry::Bytes(b"c: {d?: string}\n")),
        ("a4", Entry::Bytes(b"a: 4\n")),
        ("0", Entry::Bytes(first)),
        ("1", Entry::Bytes(second)),
        ("2", Entry::Bytes(third)),
    ];
    ran_over(alloc, &files, words, b"")
}

/// The same, once the three sites have sent their states.
fn ran_among_three<H>(rt: &mut H, words: &[&str]) -> Result<Run, Fail>
where
    H: AllocGlobal + FileSystem + Net<Listener = TcpListener, Stream = TcpStream>,
{
    let first = state_of(rt, "a: >=0\n---\na: <=9\n")?;
    let second = state_of(rt, "b: *1 | 2\n---\nb: int\n")?;
    let third = state_of(rt, "c: {d?: string}\n---\na: 4\n")?;
    ran_on_sent(rt.alloc(), [&first, &second, &third], words)
}

/// Whether a site that has run on these words of three, and one that has on those, wrote the same,
/// which is exported so.
fn are_equal<H>(rt: &mut H, words: &[&str], others: &[&str], json: &str) -> Result<bool, Fail>
where
    H: AllocGlobal + FileSystem + Net<Listener = TcpListener, Stream = TcpStream>,
{
    let first = ran_among_three(rt, words)?;
    let second = ran_among_three(rt, others)?;
    Ok(first.is(0, &second.out, b"") && exports_bytes(rt, &first.out, 0, json)?)
}

#[test]
fn sites_that_took_the_same_states_are_equal(mut rt: HostRuntime) -> Result<(), Fail> {
    let first = ["state", "a0", "a9", "2", "1", "1", "2"];
    let second = ["state", "b1", "b", "2", "0", "0", "2"];
    assert!(rt; are_equal(&mut rt, &first, &second, "{\"a\":4,\"b\":1,\"c\":{}}\n")?);
    Ok(())
}

#[test]
fn a_site_lacks_the_state_that_it_never_took(mut rt: HostRuntime) -> Result<(), Fail> {
    let run = ran_among_three(&mut rt, &["export", "c", "a4", "0"])?;
    assert!(rt; run.is(0, b"{\"a\":4,\"c\":{}}\n", b""));
    Ok(())
}
