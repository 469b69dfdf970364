//! The limit of a view.
use crate::calls::put;
use cue_layers::{LayerKind, Layers, LayersRefusal, Memory};
use std::alloc::Global;
use std::test::Fail;

/// A policy by which each field below `x` has two fields, ten levels deep: 2^10 at the last one.
const DEEP: &str =
    "x: {a: {}, b: {}, \"*\": {a: {}, b: {}, \"*\": {a: {}, b: {}, \"*\": {a: {}, b: {}, \
\"*\": {a: {}, b: {}, \"*\": {a: {}, b: {}, \"*\": {a: {}, b: {}, \"*\": {a: {}, b: {}, \"*\": {a: {}, b: {}, \
\"*\": {a: {}, b: {}}}}}}}}}}}\n";

/// Whether a map has no view, since it is too large.
fn is_refused(alloc: Global, map: &Layers, limit: u64) -> Result<bool, LayersRefusal> {
    match map.view(alloc, limit) {
        Ok(_) => Ok(false),
        Err(LayersRefusal::ViewTooLarge) => Ok(true),
        Err(why) => Err(why),
    }
}

#[test]
fn a_view_has_at_most_so_many_rows(rt: HostRuntime) -> Result<(), Fail> {
    let alloc = rt.alloc();
    let mut map = Layers::new(alloc)?;
    put(
        alloc,
        &mut map,
        LayerKind::Layer,
        "web",
        "s: web: replicas: 3\n",
    )?;
    put(
        alloc,
        &mut map,
        LayerKind::Layer,
        "pay",
        "s: pay: replicas: 2\n",
    )?;
    put(alloc, &mut map, LayerKind::Layer, "other", "t: 1\n")?;
    put(
        alloc,
        &mut map,
        LayerKind::Policy,
        "tls",
        "s: \"*\": tls: true\n",
    )?;
    // The root, `s`, `t`, and at each of two services three.
    assert!(rt; !is_refused(alloc, &map, 9)?);
    assert!(rt; is_refused(alloc, &map, 8)?);
    Ok(())
}

#[test]
fn views_without_patterns_have_no_limit(rt: HostRuntime) -> Result<(), Fail> {
    let alloc = rt.alloc();
    let mut map = Layers::new(alloc)?;
    put(alloc, &mut map, LayerKind::Layer, "web", "a: 1\nb: 2\n")?;
    put(alloc, &mut map, LayerKind::Policy, "cap", "a: <=5\n")?;
    assert!(rt; !is_refused(alloc, &map, 0)?);
    Ok(())
}

#[test]
fn a_view_that_doubles_at_each_step_is_refused(rt: HostRuntime) -> Result<(), Fail> {
    let alloc = rt.alloc();
    let mut map = Layers::new(alloc)?;
    put(alloc, &mut map, LayerKind::Policy, "deep", DEEP)?;
    assert!(rt; !is_refused(alloc, &map, 2048)?);
    assert!(rt; is_refused(alloc, &map, 2047)?);
    Ok(())
}

/// The names of the layers and policies that alone make the view of a map too large.
fn names_of_least(alloc: Global, map: &Layers, limit: u64) -> Result<Option<String>, Memory> {
    let Some(least) = map.least_too_large(alloc, limit)? else {
        return Ok(None);
    };
    let mut names = String::new(alloc);
    for layer in &least {
        names.push_str(layer.name.as_str())?;
        names.push_str(" ")?;
    }
    Ok(Some(names))
}

/// Whether just these layers and policies make the view of a map too large.
fn are_least(alloc: Global, map: &Layers, limit: u64, names: &str) -> Result<bool, Memory> {
    let found = names_of_least(alloc, map, limit)?;
    match found {
        Some(found) => Ok(found.as_str() == names),
        None => Ok(names.is_empty()),
    }
}

#[test]
fn layers_that_make_a_view_too_large_are_found(rt: HostRuntime) -> Result<(), Fail> {
    let alloc = rt.alloc();
    let mut map = Layers::new(alloc)?;
    let web = "s: web: replicas: 3\n";
    let pay = "s: pay: replicas: 2\n";
    put(alloc, &mut map, LayerKind::Layer, "web", web)?;
    put(alloc, &mut map, LayerKind::Layer, "pay", pay)?;
    put(alloc, &mut map, LayerKind::Layer, "other", "t: 1\n")?;
    let tls = "s: \"*\": tls: true\n";
    put(alloc, &mut map, LayerKind::Policy, "tls", tls)?;
    assert!(rt; are_least(alloc, &map, 9, "")?);
    assert!(rt; are_least(alloc, &map, 8, "other pay web tls ")?);
    assert!(rt; are_least(alloc, &map, 7, "pay web tls ")?);
    assert!(rt; are_least(alloc, &map, 5, "pay web tls ")?);
    assert!(rt; are_least(alloc, &map, 0, "tls ")?);
    Ok(())
}
