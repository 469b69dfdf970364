use crate::desk::Desk;
use cue_layers_program::{
    LayerKind, LayersRefusal, LayersStop, Refusal, join_files, merge, put, view_of,
};
use cue_replica::Kind;
use std::test::Fail;

/// Puts files as the layer `web` of the map in a file.
fn put_files(desk: &mut Desk, name: &str, map: &str, files: &[&str]) -> Result<u64, LayersStop> {
    let mut none: &[u8] = &[];
    put(desk, LayerKind::Layer, name, map, files, 100, &mut none)
}

/// Why an input is refused, which is its number.
fn refused(kind: Kind, place: usize, number: usize) -> LayersStop {
    LayersStop::RefusedInput(LayersRefusal::Store(Refusal::at(kind, place)), number)
}

#[test]
fn what_is_looked_at_first_is_refused(rt: HostRuntime) -> Result<(), Fail> {
    let mut desk = Desk::new(rt.alloc());
    assert_eq!(rt; desk.put("web", "a: 1\n"), Ok(1));
    assert_eq!(rt; desk.add("text", b"a: 2\n"), Ok(()));
    assert_eq!(rt; desk.add("wrong", b"a: \xff\n"), Ok(()));
    assert_eq!(rt;
        put_files(&mut desk, "a//b", "text", &["wrong"]),
        Err(LayersStop::Refused(LayersRefusal::BadName(2)))
    );
    assert_eq!(rt;
        put_files(&mut desk, "web", "text", &["wrong"]),
        Err(LayersStop::Refused(LayersRefusal::NotLayers))
    );
    assert_eq!(rt;
        put_files(&mut desk, "web", "map", &["text", "wrong", "none"]),
        Err(refused(Kind::BadCharacter, 3, 2))
    );
    assert_eq!(rt;
        put_files(&mut desk, "web", "map", &["none", "wrong"]),
        Err(LayersStop::Device)
    );
    assert_eq!(rt;
        put_files(&mut desk, "web", "map", &["map"]),
        Err(refused(Kind::NotState, 0, 1))
    );
    assert_eq!(rt; desk.made, 1);
    assert_eq!(rt; put_files(&mut desk, "web", "map", &["text"]), Ok(2));
    Ok(())
}

#[test]
fn files_that_are_joined_are_refused_in_their_order(rt: HostRuntime) -> Result<(), Fail> {
    let mut desk = Desk::new(rt.alloc());
    assert_eq!(rt; desk.put("web", "a: 1\n"), Ok(1));
    assert_eq!(rt; desk.add("layers", b"\xfeLAY\x02"), Ok(()));
    assert_eq!(rt; desk.add("cut", b"\xfeLAY\x01"), Ok(()));
    assert_eq!(rt; desk.add("state", b"\xfe"), Ok(()));
    assert_eq!(rt;
        merge(&mut desk, "out", &["map", "layers", "none"]),
        Err(refused(Kind::Version, 0, 2))
    );
    assert_eq!(rt;
        merge(&mut desk, "out", &["cut"]),
        Err(LayersStop::RefusedInput(LayersRefusal::NotLayers, 1))
    );
    assert_eq!(rt;
        join_files(&desk, &["map", "map", "state"]).err(),
        Some(refused(Kind::NotState, 0, 3))
    );
    assert_eq!(rt;
        join_files(&desk, &["map", "none"]).err(),
        Some(LayersStop::Device)
    );
    assert_eq!(rt; desk.made, 1);
    Ok(())
}

#[test]
fn a_put_makes_no_view_too_large(rt: HostRuntime) -> Result<(), Fail> {
    let mut desk = Desk::new(rt.alloc());
    let large = Err(LayersStop::Refused(LayersRefusal::ViewTooLarge));
    assert_eq!(rt; desk.put("web", "s: {a: {}, b: {}}\n"), Ok(1));
    assert_eq!(rt; desk.add("deep", b"s: \"*\": {x: {}, y: {}}\n"), Ok(()));
    let mut none: &[u8] = &[];
    assert_eq!(rt;
        put(
            &mut desk,
            LayerKind::Policy,
            "p",
            "map",
            &["deep"],
            5,
            &mut none
        ),
        large
    );
    assert_eq!(rt;
        put(
            &mut desk,
            LayerKind::Policy,
            "p",
            "map",
            &["deep"],
            100,
            &mut none
        ),
        Ok(1)
    );
    assert_eq!(rt;
        view_of(&desk, &["map"], 5).err(),
        Some(LayersStop::Refused(LayersRefusal::ViewTooLarge))
    );
    assert_eq!(rt; put_files(&mut desk, "web", "map", &["deep"]), Ok(2));
    Ok(())
}
