use crate::desk::Desk;
use cue_layers_program::{LayerKind, LayersStop, SiteQuestion, list, remove, show, view_of};
use cue_program::answer_to;
use std::alloc::Global;
use std::test::Fail;

/// Whether the view of files answers a question by this text.
fn answers(
    desk: &Desk,
    question: SiteQuestion,
    files: &[&str],
    text: &str,
) -> Result<bool, LayersStop> {
    let view = view_of(desk, files, 100)?;
    let alloc: Global = desk.alloc();
    let answer = answer_to(alloc, question, &view)?;
    Ok(
        answer.bytes.as_slice() == text.trim_end().as_bytes()
            || answer.bytes.as_slice() == text.as_bytes(),
    )
}

/// Whether the view of files is exported so.
pub fn exports(desk: &Desk, files: &[&str], text: &str) -> Result<bool, LayersStop> {
    answers(desk, SiteQuestion::Export, files, text)
}

/// Whether the view of files is reported so.
pub fn reports(desk: &Desk, files: &[&str], text: &str) -> Result<bool, LayersStop> {
    answers(desk, SiteQuestion::Report, files, text)
}

/// The canonical text of what a layer of the map says.
fn said(desk: &Desk, name: &str) -> Result<Option<String>, LayersStop> {
    match show(desk, LayerKind::Layer, "map", name)? {
        Some(site) => Ok(Some(site.print(desk.alloc())?)),
        None => Ok(None),
    }
}

#[test]
fn a_list_has_each_layer(rt: HostRuntime) -> Result<(), Fail> {
    let mut desk = Desk::new(rt.alloc());
    assert_eq!(rt; desk.put("web", "a: 1\nb: 2\n"), Ok(1));
    assert_eq!(rt; desk.put("web", "a: 1\n"), Ok(2));
    assert_eq!(rt; desk.put("gone", "a: 1\n"), Ok(1));
    assert_eq!(rt;
        remove(&mut desk, LayerKind::Layer, "gone", "map"),
        Ok(Some(2))
    );
    assert_eq!(rt; desk.put_policy("sec", "s: \"*\": 1\n"), Ok(1));
    assert_eq!(rt; desk.add("text", b"c: 3\n"), Ok(()));
    let text = list(&desk, &["map", "text"])?;
    assert_eq!(rt;
        text.as_str(),
        "commons 0 2\nlayer gone 2 0\nlayer web 2 2\npolicy sec 1 3\n"
    );
    Ok(())
}

#[test]
fn a_name_shows_what_it_says(rt: HostRuntime) -> Result<(), Fail> {
    let mut desk = Desk::new(rt.alloc());
    assert_eq!(rt; desk.put("web", "a: 1\n"), Ok(1));
    assert_eq!(rt; desk.put("gone", "a: 1\n"), Ok(1));
    assert_eq!(rt;
        remove(&mut desk, LayerKind::Layer, "gone", "map"),
        Ok(Some(2))
    );
    let web = said(&desk, "web")?;
    assert_eq!(rt; web.as_ref().map(|text| text.as_str()), Some("\"a\": 1\n"));
    assert!(rt; said(&desk, "gone")?.is_none());
    assert!(rt; said(&desk, "never")?.is_none());
    Ok(())
}

#[test]
fn policies_bind_what_layers_declare(rt: HostRuntime) -> Result<(), Fail> {
    let mut desk = Desk::new(rt.alloc());
    assert_eq!(rt;
        desk.put_policy("sec", "services: \"*\": {replicas: <=10}\n"),
        Ok(1)
    );
    assert!(rt; exports(&desk, &["map"], "{\"services\":{}}\n")?);
    assert_eq!(rt; desk.put("pay", "services: pay: replicas: 30\n"), Ok(1));
    assert!(rt; reports(&desk, &["map"], "conflict services.pay.replicas no value\n")?);
    Ok(())
}
