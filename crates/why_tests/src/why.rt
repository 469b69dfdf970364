//! Which layers make what is reported at a path.
use cue_layers::{LayerKind, Layers, LayersRefusal, Memory, Piece, Text};
use cue_layers_why::{why, why_lines};
use cue_places::read_path;
use std::alloc::Global;
use std::test::Fail;

/// The pieces of one text.
fn piece(alloc: Global, text: &str) -> Result<Vec<Piece>, Memory> {
    let mut pieces = Vec::new(alloc);
    pieces.push(Piece::Text(Text::from_str(alloc, text)?))?;
    Ok(pieces)
}

/// Puts one text.
fn put(
    alloc: Global,
    map: &mut Layers,
    kind: LayerKind,
    name: &str,
    text: &str,
) -> Result<u64, LayersRefusal> {
    let pieces = piece(alloc, text)?;
    map.put(kind, name, pieces.as_slice())
}

/// The lines for a path.
fn said(alloc: Global, map: &Layers, path: &str) -> Result<String, Fail> {
    match read_path(alloc, path)? {
        Some(steps) => {
            let named = why(alloc, map, steps.as_slice())?;
            Ok(why_lines(alloc, named.as_slice())?)
        }
        None => Ok(String::from_str(alloc, "no path")?),
    }
}

#[test]
fn both_owners_are_named(rt: HostRuntime) -> Result<(), Fail> {
    let alloc = rt.alloc();
    let mut map = Layers::new(alloc)?;
    put(alloc, &mut map, LayerKind::Layer, "web", "replicas: 6\n")?;
    put(alloc, &mut map, LayerKind::Layer, "cap", "replicas: <=5\n")?;
    put(alloc, &mut map, LayerKind::Layer, "too", "replicas: <=9\n")?;
    let both = "layer cap\n\treplicas: <=5\nlayer web\n\treplicas: 6\n";
    assert_eq!(rt; said(alloc, &map, "replicas")?.as_str(), both);
    put(alloc, &mut map, LayerKind::Layer, "web", "replicas: 4\n")?;
    assert_eq!(rt; said(alloc, &map, "replicas")?.as_str(), "");
    Ok(())
}

#[test]
fn a_tie_names_its_layer_alone(rt: HostRuntime) -> Result<(), Fail> {
    let alloc = rt.alloc();
    let mut here = Layers::new(alloc)?;
    let mut there = Layers::new(alloc)?;
    put(alloc, &mut here, LayerKind::Layer, "web", "replicas: 6\n")?;
    put(alloc, &mut there, LayerKind::Layer, "web", "replicas: 8\n")?;
    here.join(there)?;
    assert_eq!(rt;
        said(alloc, &here, "replicas")?.as_str(),
        "layer web\n\treplicas: _|_\n"
    );
    Ok(())
}

#[test]
fn a_policy_is_named_with_its_pattern(rt: HostRuntime) -> Result<(), Fail> {
    let alloc = rt.alloc();
    let mut map = Layers::new(alloc)?;
    let sec = "services: \"*\": {replicas: <=10, tls: true}\n";
    let pay = "services: \"pay-eu\": {replicas: 30, tls: true}\n";
    let web = "services: web: {replicas: 3, tls: true}\n";
    put(alloc, &mut map, LayerKind::Policy, "sec", sec)?;
    put(alloc, &mut map, LayerKind::Layer, "web", web)?;
    put(alloc, &mut map, LayerKind::Layer, "pay", pay)?;
    let both = "layer pay\n\tservices.\"pay-eu\".replicas: 30\n\
policy sec\n\tservices.\"*\".replicas: <=10\n";
    assert_eq!(rt;
        said(alloc, &map, "services.\"pay-eu\".replicas")?.as_str(),
        both
    );
    assert_eq!(rt; said(alloc, &map, "services.web.replicas")?.as_str(), "");
    Ok(())
}

#[test]
fn a_label_is_shown_at_the_place_above(rt: HostRuntime) -> Result<(), Fail> {
    let alloc = rt.alloc();
    let mut map = Layers::new(alloc)?;
    map.submit("s: {b: {}}\n")?;
    put(
        alloc,
        &mut map,
        LayerKind::Layer,
        "w",
        "s: close({a: {}})\n",
    )?;
    let both = "commons\n\ts: {\"b\": {}}\nlayer w\n\ts: close({\"a\": {}})\n";
    assert_eq!(rt; said(alloc, &map, "s.b")?.as_str(), both);
    Ok(())
}
