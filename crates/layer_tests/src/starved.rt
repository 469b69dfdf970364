//! Calls that find no memory. `bin/test/starved` refuses each allocation of these tests in turn.
use crate::calls::{piece, prints, put};
use cue_layers::{LayerKind, Layers, LayersRefusal, Memory, Piece};
use std::alloc::Global;
use std::test::Fail;

/// Whether a map has these layers bytes.
fn has_bytes(alloc: Global, map: &Layers, bytes: &[u8]) -> Result<bool, Memory> {
    let found = map.write(alloc)?;
    Ok(found.as_slice() == bytes)
}

/// Joins a map to another one: whether that was done, or else nothing changed.
fn joins_or_stays(alloc: Global, map: &mut Layers, other: Layers) -> Result<bool, Memory> {
    let bytes = map.write(alloc)?;
    match map.join(other) {
        Ok(()) => Ok(true),
        Err(memory) if has_bytes(alloc, map, bytes.as_slice())? => Err(memory),
        Err(_) => Ok(false),
    }
}

/// Puts pieces: the revision, or nothing where the put was refused and yet something changed.
fn puts_or_stays(
    alloc: Global,
    map: &mut Layers,
    kind: LayerKind,
    pieces: &[Piece],
) -> Result<Option<u64>, LayersRefusal> {
    let bytes = map.write(alloc)?;
    match map.put(kind, "web", pieces) {
        Ok(revision) => Ok(Some(revision)),
        Err(why) if has_bytes(alloc, map, bytes.as_slice())? => Err(why),
        Err(_) => Ok(None),
    }
}

#[test]
fn a_put_without_memory_changes_nothing(rt: HostRuntime) -> Result<(), Fail> {
    let alloc = rt.alloc();
    let mut map = Layers::new(alloc)?;
    let pieces = piece(alloc, "s: \"*\": {a: 1, l: [1, ...int]}\n")?;
    let first = puts_or_stays(alloc, &mut map, LayerKind::Layer, pieces.as_slice())?;
    assert_eq!(rt; first, Some(1));
    let second = puts_or_stays(alloc, &mut map, LayerKind::Layer, pieces.as_slice())?;
    assert_eq!(rt; second, Some(2));
    Ok(())
}

#[test]
fn a_join_without_memory_changes_nothing(rt: HostRuntime) -> Result<(), Fail> {
    let alloc = rt.alloc();
    let mut here = Layers::new(alloc)?;
    let mut there = Layers::new(alloc)?;
    put(alloc, &mut here, LayerKind::Layer, "web", "a: 1\n")?;
    put(alloc, &mut here, LayerKind::Layer, "pay", "b: 1\n")?;
    put(alloc, &mut there, LayerKind::Layer, "web", "a: 2\n")?;
    put(alloc, &mut there, LayerKind::Policy, "web", "\"*\": int\n")?;
    let bytes = there.write(alloc)?;
    let read = Layers::read(alloc, bytes.as_slice())?;
    assert!(rt; joins_or_stays(alloc, &mut here, read)?);
    assert!(rt; joins_or_stays(alloc, &mut there, here.copy(alloc)?)?);
    assert!(rt; here.same(&there));
    Ok(())
}

#[test]
fn a_view_without_memory_is_no_other_view(rt: HostRuntime) -> Result<(), Fail> {
    let alloc = rt.alloc();
    let mut map = Layers::new(alloc)?;
    map.submit("s: {web: a: 1, pay: a: 2}\n")?;
    put(
        alloc,
        &mut map,
        LayerKind::Policy,
        "all",
        "s: \"*\": {a: int, b: [1, ...int]}\n",
    )?;
    let expected =
        "\"s\": {\"pay\": {\"a\": 2, \"b\": [1, ...int]}, \"web\": {\"a\": 1, \"b\": [1, ...int]}}\n";
    assert!(rt; prints(alloc, &map, expected)?);
    Ok(())
}
