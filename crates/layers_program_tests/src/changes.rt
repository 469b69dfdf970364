use crate::answers::{exports, reports};
use crate::desk::Desk;
use cue_layers_program::{LayerKind, LayersStop, Status, attempt, merge, remove};
use std::test::Fail;

#[test]
fn the_next_put_replaces(rt: HostRuntime) -> Result<(), Fail> {
    let mut desk = Desk::new(rt.alloc());
    assert_eq!(rt; desk.put("web", "replicas: 6\n"), Ok(1));
    assert_eq!(rt; desk.put("web", "replicas: 8\n"), Ok(2));
    assert!(rt; exports(&desk, &["map"], "{\"replicas\":8}\n")?);
    assert_eq!(rt; desk.made, 2);
    Ok(())
}

#[test]
fn a_put_unifies_its_inputs(rt: HostRuntime) -> Result<(), Fail> {
    let mut desk = Desk::new(rt.alloc());
    assert_eq!(rt; desk.put("web", "a: 1\n---\nb: 2\n"), Ok(1));
    assert!(rt; exports(&desk, &["map"], "{\"a\":1,\"b\":2}\n")?);
    Ok(())
}

#[test]
fn a_name_that_was_never_put_is_not_removed(rt: HostRuntime) -> Result<(), Fail> {
    let mut desk = Desk::new(rt.alloc());
    assert_eq!(rt; remove(&mut desk, LayerKind::Layer, "web", "map"), Ok(None));
    assert!(rt; desk.bytes("map").is_none());
    assert_eq!(rt; desk.put("cap", "b: 3\n"), Ok(1));
    assert_eq!(rt; desk.put("web", "a: 1\n"), Ok(1));
    assert_eq!(rt;
        remove(&mut desk, LayerKind::Policy, "web", "map"),
        Ok(None)
    );
    assert_eq!(rt;
        remove(&mut desk, LayerKind::Layer, "web", "map"),
        Ok(Some(2))
    );
    assert!(rt; exports(&desk, &["map"], "{\"b\":3}\n")?);
    Ok(())
}

#[test]
fn old_maps_bring_nothing_back(rt: HostRuntime) -> Result<(), Fail> {
    let mut desk = Desk::new(rt.alloc());
    assert_eq!(rt; desk.put("cap", "b: 3\n"), Ok(1));
    assert_eq!(rt; desk.put("web", "a: 1\n"), Ok(1));
    assert_eq!(rt; merge(&mut desk, "old", &["map"]), Ok(()));
    assert_eq!(rt;
        remove(&mut desk, LayerKind::Layer, "web", "map"),
        Ok(Some(2))
    );
    assert_eq!(rt; merge(&mut desk, "map", &["map", "old"]), Ok(()));
    assert!(rt; exports(&desk, &["map"], "{\"b\":3}\n")?);
    assert!(rt; exports(&desk, &["old"], "{\"a\":1,\"b\":3}\n")?);
    Ok(())
}

#[test]
fn a_text_belongs_to_the_commons(rt: HostRuntime) -> Result<(), Fail> {
    let mut desk = Desk::new(rt.alloc());
    assert_eq!(rt; desk.put("web", "a: 1\n"), Ok(1));
    assert_eq!(rt; desk.add("text", b"a: 2\n"), Ok(()));
    assert_eq!(rt; merge(&mut desk, "map", &["map", "text"]), Ok(()));
    assert!(rt; reports(&desk, &["map"], "conflict a no value\n")?);
    assert_eq!(rt; desk.put("web", "b: 3\n"), Ok(2));
    assert!(rt; exports(&desk, &["map"], "{\"a\":2,\"b\":3}\n")?);
    Ok(())
}

/// Whether a put of a text as the layer `web` would add these lines to the report.
fn adds(desk: &mut Desk, text: &str, lines: &str, status: Status) -> Result<bool, LayersStop> {
    let kind = LayerKind::Layer;
    let answer = attempt(desk, kind, "web", "map", &[], 100, &mut text.as_bytes())?;
    Ok(answer.bytes.as_slice() == lines.as_bytes() && answer.status == status)
}

#[test]
fn a_try_tells_what_is_new(rt: HostRuntime) -> Result<(), Fail> {
    let mut desk = Desk::new(rt.alloc());
    assert_eq!(rt; desk.put("cap", "a: <5\nb: int\n"), Ok(1));
    assert_eq!(rt; desk.put("web", "b: 1\n"), Ok(1));
    let kept = desk.bytes("map").map(|bytes| bytes.len());
    assert!(rt; adds(&mut desk, "b: 2\n", "", Status::Done)?);
    assert!(rt;
        adds(
            &mut desk,
            "a: 7\nc: int\n",
            "conflict a no value\nincomplete b not a single value\nincomplete c not a single value\n",
            Status::Conflicts
        )?
    );
    assert!(rt;
        adds(
            &mut desk,
            "a: 3\nb: 1\nc: int\n",
            "incomplete c not a single value\n",
            Status::Incomplete
        )?
    );
    assert_eq!(rt; desk.bytes("map").map(|bytes| bytes.len()), kept);
    Ok(())
}
