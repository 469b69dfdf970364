//! Names that stand, and the sizes of their texts.
use crate::texts::resolving::each_sized;

#[test]
fn names_that_stand(rt: HostRuntime) {
    let alloc = rt.alloc();
    each_sized(
        &rt,
        alloc,
        &[
            ("\"int\": 3\na: int\n", 5),
            ("true: 1\na: true", 5),
            ("a: close({close: 1})", 6),
            ("a: _", 3),
            ("#A: 1\n\"#A\": #A", 4),
            ("x: #A\n#A: 1", 4),
            ("#A: #B\n#B: #C\n#C: 1\nx: #A", 6),
            ("x: [...#A]\n#A: 1", 6),
            ("#A: 1 | 2\na: #A | 3", 8),
        ],
    );
}
