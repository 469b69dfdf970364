//! Texts on standard input, and the lines that separate them.
use crate::runs::exports;
use std::test::Fail;

#[test]
fn exports_what_stands_between_separating_lines(mut rt: HostRuntime) -> Result<(), Fail> {
    assert!(rt;
        exports(
            &mut rt,
            "port: int\n---\nport: 443\n",
            0,
            "{\"port\":443}\n"
        )?
    );
    assert!(rt; exports(&mut rt, "a: 1\n---\na: 2\n", 2, "conflict a no value\n")?);
    assert!(rt; exports(&mut rt, "a: int\n", 3, "incomplete a not a single value\n")?);
    assert!(rt; exports(&mut rt, "a:1\n", 0, "{\"a\":1}\n")?);
    assert!(rt; exports(&mut rt, "a: 1\n---", 0, "{\"a\":1}\n")?);
    assert!(rt; exports(&mut rt, "---\n---\nb: -2", 0, "{\"b\":-2}\n")?);
    assert!(rt;
        exports(
            &mut rt,
            "a: 1\n---\r\nb: 2\n",
            1,
            "refused 9 LeftOut at 5 in 1\n"
        )?
    );
    assert!(rt;
        exports(
            &mut rt,
            "a: 1\n---\nb 2\n",
            1,
            "refused 9 LeftOut at 0 in 2\n"
        )?
    );
    assert!(rt; exports(&mut rt, "a: 1\n ---\n", 1, "refused 9 LeftOut at 6 in 1\n")?);
    Ok(())
}
