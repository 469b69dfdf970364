//! Views of layers and policies: worked answers, and allocations that fail.
use cue_codec::decode;
use cue_policies::{
    LayerKind, ViewError, documents_of_views, fits, is_pattern, is_plain, is_well_formed,
    policies_stay_well_formed, views_in_any_order, views_of_two, views_without_patterns,
    whole_view,
};
use cue_replica::{Refusal, Replica};
use cue_report::write_export;
use cue_row::Row;
use cue_table::Table;
use std::alloc::Global;
use std::test::Fail;

/// The table of the unification of texts.
fn table(alloc: Global, texts: &[&str]) -> Result<Table<Row>, Refusal> {
    let mut site = Replica::new(alloc);
    for text in texts {
        site.submit(text)?;
    }
    let state = site.state(alloc)?;
    match decode(alloc, &state) {
        Ok(table) => Ok(table),
        Err(kind) => Err(Refusal { kind, place: 0 }),
    }
}

/// What the view of layers and policies exports: JSON, or the lines of conflicts or gaps. Nothing
/// where a table is not valid, or the policies are not well formed.
fn exported(alloc: Global, layers: &[&str], policies: &[&str]) -> Result<Option<String>, Refusal> {
    let layers = table(alloc, layers)?;
    let policies = table(alloc, policies)?;
    if !layers.is_valid() || !policies.is_valid() || !is_well_formed(&policies) {
        return Ok(None);
    }
    let view = match whole_view(alloc, &layers, &policies, 1000) {
        Ok(view) => view,
        Err(ViewError::Memory(memory)) => return Err(Refusal::from(memory)),
        Err(ViewError::TooLarge) => return Ok(None),
    };
    let mut text = String::new(alloc);
    write_export(alloc, &view, &mut text)?;
    Ok(Some(text))
}

/// A policy: at most 10 replicas, and TLS.
const SEC: &str = "services: \"*\": {replicas: <=10, tls: true}\n";

/// Layers, policies, and what their view exports.
const VIEWS: &[(&[&str], &[&str], &str)] = &[
    (
        &["services: web: {replicas: 3, tls: true}\n"],
        &[SEC],
        "{\"services\":{\"web\":{\"replicas\":3,\"tls\":true}}}",
    ),
    (
        &["services: \"pay-eu\": {replicas: 30, tls: true}\n"],
        &[SEC],
        "conflict services.\"pay-eu\".replicas no value\n",
    ),
    (&[], &[SEC], "{\"services\":{}}"),
    (
        &[],
        &["services?: \"*\": {replicas: <=10, tls: true}\n"],
        "{}",
    ),
    (
        &["services: {\"pay-eu\": {}, web: {}}\n"],
        &["services: \"pay-*\": tier: 1\n"],
        "{\"services\":{\"pay-eu\":{\"tier\":1},\"web\":{}}}",
    ),
    (
        &["services: web: ports: http: 0\n"],
        &["services: \"*\": {ports?: \"*\": >=1 & <=65535}\n"],
        "conflict services.web.ports.http no value\n",
    ),
    (
        &["services: web: {}\n"],
        &[
            "services: \"*\": sidecar: {image: \"envoy\"}\n",
            "services: \"*\": \"*\": {image?: string, debug?: false}\n",
        ],
        "{\"services\":{\"web\":{\"sidecar\":{\"image\":\"envoy\"}}}}",
    ),
    (
        &["services: web: sidecar: debug: true\n"],
        &[
            "services: \"*\": sidecar: {image: \"envoy\"}\n",
            "services: \"*\": \"*\": {image?: string, debug?: false}\n",
        ],
        "conflict services.web.sidecar.debug no value\n",
    ),
    (&["x: \"*\": 1\n"], &[], "{\"x\":{\"*\":1}}"),
    (&["services: web?: {}\n"], &[SEC], "{\"services\":{}}"),
    (
        &[],
        &["s: {web: replicas: 3, \"*\": replicas?: <=2}\n"],
        "conflict s.web.replicas no value\n",
    ),
    (
        &["s: \"pay-eu\": team: \"y\"\n"],
        &["s: {\"pay-*\": tier: 1, \"*\": team?: \"x\"}\n"],
        "conflict s.\"pay-eu\".team no value\n",
    ),
    (
        &["x: a: 1\n"],
        &["x: \"*\": int\n", "x: close({a?: 1})\n"],
        "{\"x\":{\"a\":1}}",
    ),
    (
        &["x: l: [1, 2, ...int]\n"],
        &["x: \"*\": [...<=2]\n"],
        "{\"x\":{\"l\":[1,2]}}",
    ),
    (
        &["x: l: [1, 2, 3]\n"],
        &["x: \"*\": [_, _, ...<=2]\n"],
        "conflict x.l.2 no value\n",
    ),
];

#[test]
fn views_of_layers_and_policies(rt: HostRuntime) -> Result<(), Fail> {
    for (layers, policies, text) in VIEWS {
        match exported(rt.alloc(), layers, policies)? {
            None => assert!(rt; false),
            Some(found) => assert_eq!(rt; found.as_str(), *text),
        }
    }
    Ok(())
}

/// Whether the policy of a text is well formed.
fn is_formed(alloc: Global, text: &str) -> Result<bool, Refusal> {
    Ok(is_well_formed(&table(alloc, &[text])?))
}

#[test]
fn policies_that_are_well_formed(rt: HostRuntime) -> Result<(), Fail> {
    assert!(rt; is_formed(rt.alloc(), SEC)?);
    assert!(rt; is_formed(rt.alloc(), "x: {\"*\": {a: [...int]}}\ny: close({a: 1})\n")?);
    assert!(rt; !is_formed(rt.alloc(), "l: [...{\"*\": int}]\n")?);
    assert!(rt; !is_formed(rt.alloc(), "#P: {\"*\": int}\nx: #P\n")?);
    Ok(())
}

/// Whether the policy of a text has no pattern. Nothing is answered where it is not well formed.
fn is_plain_text(alloc: Global, text: &str) -> Result<Option<bool>, Refusal> {
    let policy = table(alloc, &[text])?;
    if !is_well_formed(&policy) {
        return Ok(None);
    }
    Ok(Some(is_plain(&policy)))
}

#[test]
fn policies_without_patterns(rt: HostRuntime) -> Result<(), Fail> {
    assert_eq!(rt; is_plain_text(rt.alloc(), SEC)?, Some(false));
    assert_eq!(rt;
        is_plain_text(rt.alloc(), "services: web: tls: true\n")?,
        Some(true)
    );
    assert_eq!(rt; is_plain_text(rt.alloc(), "l: [...{\"*\": int}]\n")?, None);
    Ok(())
}

#[test]
fn laws_compute_nothing(_rt: HostRuntime) {
    policies_stay_well_formed();
    views_in_any_order();
    views_of_two();
    views_without_patterns();
    documents_of_views();
}

#[test]
fn patterns_and_what_they_fit(rt: HostRuntime) -> Result<(), Fail> {
    assert!(rt; is_pattern("*"));
    assert!(rt; is_pattern("pay-*"));
    assert!(rt; !is_pattern("pay"));
    assert!(rt; !is_pattern(""));
    assert!(rt; fits("pay-*", "pay-eu"));
    assert!(rt; fits("pay-*", "pay-"));
    assert!(rt; !fits("pay-*", "web"));
    assert!(rt; !fits("pay", "pay"));
    assert!(rt; LayerKind::Layer != LayerKind::Policy);
    Ok(())
}
