//! Bytes that are refused, as texts or as states, and where.
use crate::runs::exports_bytes;
use cue_program::FileSystem;
use std::net::{Net, TcpListener, TcpStream};
use std::test::Fail;

/// Whether a text of one byte more than may be is refused.
fn refuses_the_longest<H>(rt: &mut H) -> Result<bool, Fail>
where
    H: AllocGlobal + FileSystem + Net<Listener = TcpListener, Stream = TcpStream>,
{
    let long = vec![in rt.alloc(); b'\n'; 1_048_577]?;
    exports_bytes(rt, &long, 1, "refused 1 TooLong at 1048576 in 1\n")
}

#[test]
fn refuses_bytes(mut rt: HostRuntime) -> Result<(), Fail> {
    let free = b"\xFECUE\x01\0\0\0\0\0\0\0\0";
    let other = b"\xFECUE\x09\0\0\0\0\0\0\0\0";
    assert!(rt; exports_bytes(&mut rt, free, 3, "incomplete . not a single value\n")?);
    assert!(rt; exports_bytes(&mut rt, other, 1, "refused 17 Version at 0 in 1\n")?);
    assert!(rt; exports_bytes(&mut rt, b"\xFE", 1, "refused 18 NotState at 0 in 1\n")?);
    assert!(rt;
        exports_bytes(
            &mut rt,
            b"a: \xFF\n",
            1,
            "refused 2 BadCharacter at 3 in 1\n"
        )?
    );
    let quoted = b"a: \"\xC3\xA9\xFF\"\n";
    assert!(rt; exports_bytes(&mut rt, quoted, 1, "refused 2 BadCharacter at 6 in 1\n")?);
    let second = b"a: 1\n---\n\xFECUE";
    assert!(rt; exports_bytes(&mut rt, second, 1, "refused 2 BadCharacter at 0 in 2\n")?);
    assert!(rt; refuses_the_longest(&mut rt)?);
    Ok(())
}
