//! Each command on files, one after the other.
use crate::desk::Desk;
use crate::runs::{Case, first_other};
use std::test::Fail;

/// Runs on one map, in this order.
const RUNS: &[Case] = &[
    (&["put", "map", "web"], "replicas: 6\n", 0, "1\n", ""),
    (&["put", "map", "cap", "low"], "", 0, "1\n", ""),
    (
        &["report", "map"],
        "",
        2,
        "conflict replicas no value\n",
        "",
    ),
    (
        &["why", "replicas", "map"],
        "",
        0,
        "layer cap\n\treplicas: <=5\nlayer web\n\treplicas: 6\n",
        "",
    ),
    (&["put", "map", "web", "four"], "", 0, "2\n", ""),
    (&["export", "map"], "", 0, "{\"replicas\":4}\n", ""),
    (&["print", "map"], "", 0, "\"replicas\": 4\n", ""),
    (
        &["try", "map", "web", "nine"],
        "",
        2,
        "conflict replicas no value\n",
        "",
    ),
    (
        &["try", "map", "web"],
        "replicas: int\n---\nreplicas: 3\n",
        0,
        "",
        "",
    ),
    (
        &["list", "map"],
        "",
        0,
        "commons 0 0\nlayer cap 1 2\nlayer web 2 2\n",
        "",
    ),
    (&["show", "map", "web"], "", 0, "\"replicas\": 4\n", ""),
    (&["put", "--policy", "map", "sec", "tls"], "", 0, "1\n", ""),
    (
        &["show", "--policy", "map", "sec"],
        "",
        0,
        "\"services\"?: {\"*\": {\"tls\": true}}\n",
        "",
    ),
    (&["merge", "out", "map", "service"], "", 0, "", ""),
    (
        &["export", "out"],
        "",
        0,
        "{\"replicas\":4,\"services\":{\"web\":{\"tls\":true}}}\n",
        "",
    ),
    (
        &["export", "--at", "services.web", "out"],
        "",
        0,
        "{\"tls\":true}\n",
        "",
    ),
    (&["print", "--at", "replicas", "out"], "", 0, "4\n", ""),
    (&["report", "--at=services", "out"], "", 0, "", ""),
    (
        &["export", "--at", "none", "out"],
        "",
        1,
        "absent none\n",
        "",
    ),
    (&["why", "replicas", "out"], "", 0, "", ""),
    (&["remove", "map", "web"], "", 0, "3\n", ""),
    (&["show", "map", "web"], "", 1, "absent web\n", ""),
    (&["remove", "map", "nobody"], "", 1, "absent nobody\n", ""),
    (&["remove", "--policy", "map", "sec"], "", 0, "2\n", ""),
    (
        &["export", "map"],
        "",
        3,
        "incomplete replicas not a single value\n",
        "",
    ),
    (
        &["put", "--limit", "1", "map", "web", "--", "four"],
        "",
        0,
        "4\n",
        "",
    ),
];

#[test]
fn each_command_answers(rt: HostRuntime) -> Result<(), Fail> {
    let mut desk = Desk::new(rt.alloc());
    desk.add("low", b"replicas: <=5\n")?;
    desk.add("four", b"replicas: 4\n")?;
    desk.add("nine", b"replicas: 9\n")?;
    desk.add("tls", b"services?: \"*\": tls: true\n")?;
    desk.add("service", b"services: web: tls: bool\n")?;
    assert_eq!(rt; first_other(&mut desk, RUNS)?, None);
    Ok(())
}
