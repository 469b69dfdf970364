use crate::calls::{piece, prints};
use cue_layers::{
    LayerKind, Layers, LayersRefusal, Memory, Piece, Text, bad_place, joined_maps_are_of_both_sets,
    layers_bytes_are_exact, maps_join_in_any_order, one_map_of_puts, puts_are_added,
};
use std::alloc::Global;
use std::test::Fail;

/// The state bytes of a site that has accepted nothing.
const OPENING: [u8; 13] = [0xfe, 0x43, 0x55, 0x45, 2, 0, 0, 0, 0, 0, 0, 0, 0];

/// The canonical text of what a layer says, and its revision.
fn said(alloc: Global, map: &Layers, name: &str) -> Result<(String, u64), Memory> {
    match map.get(LayerKind::Layer, name) {
        Some(layer) => Ok((layer.content.print(alloc)?, layer.revision)),
        None => Ok((String::from_str(alloc, "absent")?, 0)),
    }
}

#[test]
fn a_name_has_parts(rt: HostRuntime) -> Result<(), Fail> {
    assert_eq!(rt; bad_place(b"team/web_2.x-y"), None);
    assert_eq!(rt; bad_place(b""), Some(0));
    assert_eq!(rt; bad_place(b"/a"), Some(0));
    assert_eq!(rt; bad_place(b"a//b"), Some(2));
    assert_eq!(rt; bad_place(b"a/"), Some(2));
    assert_eq!(rt; bad_place(b"a/.b"), Some(2));
    assert_eq!(rt; bad_place(b"a b"), Some(1));
    assert_eq!(rt; bad_place(&[b'a'; 255]), None);
    assert_eq!(rt; bad_place(&[b'a'; 256]), Some(255));
    Ok(())
}

#[test]
fn the_next_put_replaces(rt: HostRuntime) -> Result<(), Fail> {
    let alloc = rt.alloc();
    let mut map = Layers::new(alloc)?;
    let six = piece(alloc, "replicas: 6\n")?;
    let eight = piece(alloc, "replicas: 8\n")?;
    assert_eq!(rt; map.put(LayerKind::Layer, "web", six.as_slice()), Ok(1));
    assert_eq!(rt; map.put(LayerKind::Layer, "web", eight.as_slice()), Ok(2));
    let (text, revision) = said(alloc, &map, "web")?;
    assert_eq!(rt; text.as_str(), "\"replicas\": 8\n");
    assert_eq!(rt; revision, 2);
    assert_eq!(rt; map.remove(LayerKind::Layer, "web"), Ok(3));
    let (text, revision) = said(alloc, &map, "web")?;
    assert_eq!(rt; text.as_str(), "_\n");
    assert_eq!(rt; revision, 3);
    assert!(rt; map.get(LayerKind::Policy, "web").is_none());
    Ok(())
}

#[test]
fn a_tie_is_unified(rt: HostRuntime) -> Result<(), Fail> {
    let alloc = rt.alloc();
    let mut here = Layers::new(alloc)?;
    let mut there = Layers::new(alloc)?;
    let one = piece(alloc, "a: 1\n")?;
    let two = piece(alloc, "b: 2\n")?;
    assert_eq!(rt; here.put(LayerKind::Layer, "web", one.as_slice()), Ok(1));
    assert_eq!(rt; there.put(LayerKind::Layer, "web", two.as_slice()), Ok(1));
    assert_eq!(rt; there.put(LayerKind::Layer, "cap", two.as_slice()), Ok(1));
    let old = here.copy(alloc)?;
    assert!(rt; !here.same(&there));
    here.join(there.copy(alloc)?)?;
    there.join(old)?;
    assert!(rt; here.same(&there));
    assert_eq!(rt; here.entries().len(), 3);
    let (text, revision) = said(alloc, &here, "web")?;
    assert_eq!(rt; text.as_str(), "\"a\": 1\n\"b\": 2\n");
    assert_eq!(rt; revision, 1);
    Ok(())
}

#[test]
fn an_old_message_brings_nothing_back(rt: HostRuntime) -> Result<(), Fail> {
    let alloc = rt.alloc();
    let mut map = Layers::new(alloc)?;
    let one = piece(alloc, "a: 1\n")?;
    assert_eq!(rt; map.put(LayerKind::Layer, "web", one.as_slice()), Ok(1));
    let message = map.write(alloc)?;
    assert_eq!(rt; map.remove(LayerKind::Layer, "web"), Ok(2));
    let bytes = map.write(alloc)?;
    map.join(Layers::read(alloc, message.as_slice())?)?;
    let again = map.write(alloc)?;
    assert_eq!(rt; again.as_slice(), bytes.as_slice());
    Ok(())
}

#[test]
fn the_commons_grows(rt: HostRuntime) -> Result<(), Fail> {
    let alloc = rt.alloc();
    let mut map = Layers::new(alloc)?;
    assert_eq!(rt; map.submit("port: int\n"), Ok(()));
    assert_eq!(rt; map.take(&OPENING), Ok(()));
    assert!(rt; map.submit("port: \n").is_err());
    let (text, revision) = said(alloc, &map, "")?;
    assert_eq!(rt; text.as_str(), "\"port\": int\n");
    assert_eq!(rt; revision, 0);
    assert_eq!(rt;
        map.put(LayerKind::Layer, "", &[]),
        Err(LayersRefusal::BadName(0))
    );
    Ok(())
}

#[test]
fn a_view_says_what_layers_and_policies_do(rt: HostRuntime) -> Result<(), Fail> {
    let alloc = rt.alloc();
    let mut map = Layers::new(alloc)?;
    let web = piece(alloc, "services: web: replicas: 3\n")?;
    let all = piece(alloc, "services: \"*\": tls: true\n")?;
    assert_eq!(rt; map.submit("services: web: port: 80\n"), Ok(()));
    assert_eq!(rt; map.put(LayerKind::Layer, "web", web.as_slice()), Ok(1));
    assert_eq!(rt; map.put(LayerKind::Policy, "all", all.as_slice()), Ok(1));
    let expected = "\"services\": {\"web\": {\"port\": 80, \"replicas\": 3, \"tls\": true}}\n";
    assert!(rt; prints(alloc, &map, expected)?);
    Ok(())
}

#[test]
fn a_policy_is_well_formed(rt: HostRuntime) -> Result<(), Fail> {
    let alloc = rt.alloc();
    let mut map = Layers::new(alloc)?;
    let list = piece(alloc, "l: [...{\"*\": int}]\n")?;
    let names = piece(alloc, "#P: {\"*\": int}\nx: #P\n")?;
    let good = piece(alloc, "x: \"*\": int\n")?;
    assert_eq!(rt;
        map.put(LayerKind::Policy, "p", list.as_slice()),
        Err(LayersRefusal::NotWellFormed)
    );
    assert_eq!(rt;
        map.put(LayerKind::Policy, "p", names.as_slice()),
        Err(LayersRefusal::NotWellFormed)
    );
    assert_eq!(rt; map.put(LayerKind::Policy, "p", good.as_slice()), Ok(1));
    assert_eq!(rt; map.put(LayerKind::Layer, "p", list.as_slice()), Ok(1));
    Ok(())
}

#[test]
fn a_refusal_has_a_line(rt: HostRuntime) -> Result<(), Fail> {
    let alloc = rt.alloc();
    let mut map = Layers::new(alloc)?;
    let mut pieces = piece(alloc, "a: 1\n")?;
    pieces.push(Piece::State(OPENING.to_vec(alloc)?))?;
    pieces.push(Piece::Text(Text::from_str(alloc, "a: \n")?))?;
    let why = match map.put(LayerKind::Layer, "web", pieces.as_slice()) {
        Ok(_) => LayersRefusal::NotLayers,
        Err(why) => why,
    };
    assert_eq!(rt; why.number(), 7);
    assert_eq!(rt; why.name(), "Syntax");
    assert_eq!(rt; why.index(), Some(2));
    let line = format!(in alloc; "{why}")?;
    assert_eq!(rt; line.as_str(), "refused 7 Syntax at 4 in 3");
    let line = format!(in alloc; "{}", LayersRefusal::BadName(2))?;
    assert_eq!(rt; line.as_str(), "refused 27 BadName at 2");
    Ok(())
}

#[test]
fn other_bytes_are_refused(rt: HostRuntime) -> Result<(), Fail> {
    let alloc = rt.alloc();
    let map = Layers::new(alloc)?;
    let mut bytes = map.write(alloc)?;
    assert_eq!(rt; bytes.len(), 45);
    assert!(rt; Layers::read(alloc, bytes.as_slice())?.same(&map));
    bytes.push(0)?;
    assert_eq!(rt;
        Layers::read(alloc, bytes.as_slice()).err(),
        Some(LayersRefusal::NotLayers)
    );
    bytes[4] = 2;
    let why = Layers::read(alloc, bytes.as_slice()).err();
    assert_eq!(rt; why.map(|why| why.number()), Some(17));
    assert_eq!(rt; why.map(|why| why.place()), Some(0));
    Ok(())
}

#[test]
fn laws_compute_nothing(_rt: HostRuntime) {
    one_map_of_puts();
    joined_maps_are_of_both_sets();
    maps_join_in_any_order();
    puts_are_added();
    layers_bytes_are_exact();
}
