//! Lengths that no frame has.
use crate::wire::ends::ends;
use cue_wire::Kind;
use std::test::Fail;

#[test]
fn a_length_that_no_frame_has_ends_a_session(rt: HostRuntime) -> Result<(), Fail> {
    let served = ends(rt.alloc(), b"\x01\0\0\x01")?;
    assert_eq!(rt; served.fault, Some(Kind::FrameTooLong));
    assert!(rt; !served.open && served.replies.is_empty());
    let served = ends(rt.alloc(), b"\0\0\0\x01\x06\xff\xff\xff\xff\0\0\0\x01\x06")?;
    assert_eq!(rt; served.fault, Some(Kind::Failed));
    assert!(rt; !served.open && served.replies.as_slice() == b"\0\0\0\x03\0_\n".as_slice());
    let served = ends(rt.alloc(), b"\x01\0\0\0\x05\0\0")?;
    assert!(rt; served.fault.is_none() && served.open && served.replies.is_empty());
    Ok(())
}
