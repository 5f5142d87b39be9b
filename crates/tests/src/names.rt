// Questions 7 to 12: the names, and what is counted.
use crate::ask::{Case, Counts, Long, all_agree, all_long_agree, counted, written};
use script::fault::Layer;
use std::process::Abort;
use std::test::Fail;

// A cell takes 11 bytes here, a var 8 and a fresh 10; its name stands 5, 4 or 6 bytes in.
static MANY: [Long; 10] = [
    (0, 0, &[("cell c#=0;", 64), ("main { }", 1)]),
    (7, 709, &[("cell c#=0;", 65), ("main { }", 1)]),
    (0, 0, &[("var a#;", 64), ("main { }", 1)]),
    (7, 516, &[("var a#;", 65), ("main { }", 1)]),
    (0, 0, &[("var a#;", 32), ("fresh x#;", 32), ("main { }", 1)]),
    (
        7,
        582,
        &[("var a#;", 32), ("fresh x#;", 33), ("main { }", 1)],
    ),
    (
        0,
        0,
        &[("cell c#=0;", 64), ("var a#;", 64), ("main { }", 1)],
    ),
    (
        7,
        1220,
        &[("cell c#=0;", 64), ("var a#;", 65), ("main { }", 1)],
    ),
    (
        7,
        709,
        &[("cell c#=0;", 65), ("var a#;", 65), ("main { }", 1)],
    ),
    (
        7,
        516,
        &[("var a#;", 65), ("cell c#=0;", 65), ("main { }", 1)],
    ),
];

static DECLARED: [Case; 21] = [
    (0, "var a; var A; var aa; cell a_ = 0; fresh a1; main { }"),
    (8, "cell a = 0; cell @a = 0; main { }"),
    (8, "cell a = 0; var @a; main { }"),
    (8, "var a; fresh @a; main { }"),
    (8, "fresh a; cell @a = 1; main { }"),
    (8, "var a; var b; var @b; var a; main { }"),
    (8, "var a; var @a; var a; main { }"),
    (
        8,
        "var abcdefghijklmnopqrstuvwx; var abcdefghijklmnopqrstuvwy; var @abcdefghijklmnopqrstuvwx; main { }",
    ),
    (9, "main { @a = 1; }"),
    (9, "main { @a = in 1; }"),
    (9, "var a; main { a = @b; }"),
    (9, "var a; main { a = 1 + (2 * @b); }"),
    (9, "var a; main { if @b { } }"),
    (9, "var a; main { if a { } else { @b = a; } }"),
    (9, "var a; main { repeat 2 { atomic { a = a < @b; } } }"),
    (9, "var a; main { together a, @b, c; }"),
    (9, "var a; main { a = @ab; }"),
    (9, "var ab; main { ab = @a; }"),
    (9, "var a; main { @A = 1; }"),
    (9, "var a;main{a=@in1;}"),
    (9, "var a; main { @b = c; }"),
];

static READINGS: [Case; 21] = [
    (0, "var a; fresh x; main { a = in 0; x = in 15; }"),
    (10, "cell c = 0; main { @c = in 1; }"),
    (
        10,
        "cell c = 0; var a; main { a = in 1; atomic { @c = in 2; } }",
    ),
    (
        10,
        "cell c = 0; cell d = 0; main { if c { @d = in 1; } c = in 1; }",
    ),
    (0, "main { repeat 1 { } }"),
    (0, "main { repeat 1000 { } }"),
    (0, "main { repeat 00001000 { } }"),
    (11, "main { repeat @0 { } }"),
    (11, "main { repeat @000 { } }"),
    (11, "main { repeat @1001 { } }"),
    (11, "main { repeat @2147483647 { } }"),
    (11, "main { repeat 1 { repeat @0 { } } }"),
    (11, "var a; main { a = in @16; }"),
    (11, "var a; main { a = in @2147483647; }"),
    (0, "var a; main { a = in 015; }"),
    (11, "var a; main { a = in @016; }"),
    (
        0,
        "cell c = 1001; var a; main { a = 1001; c = 16; if 0 { a = -1001; } }",
    ),
    (0, "var a; main { repeat 16 { a = in 1; } }"),
    (11, "var a; main { a = in @16; repeat 0 { } }"),
    (11, "var a; main { repeat @0 { } a = in 16; }"),
    (
        11,
        "var a; main { repeat 1 { a = in @1000; } repeat 1001 { } }",
    ),
];

// 1000 * (1 + 999) = 1000000 steps in the first; 16 * 256 = 4 * 1000 + 96 = 4096 readings.
static AMOUNTS: [Case; 24] = [
    (0, "main { repeat 1000 { repeat 999 { } } }"),
    (12, "@var a; main { repeat 1000 { repeat 999 { } } a = 1; }"),
    (12, "@main { repeat 1 { } repeat 1000 { repeat 999 { } } }"),
    (12, "@main { repeat 1000 { repeat 1000 { } } }"),
    (0, "var a; main { repeat 1000 { repeat 998 { } if a { } } }"),
    (
        0,
        "var a; main { repeat 1000 { repeat 997 { } if a { a = 1; } else { a = 2; } } }",
    ),
    (
        12,
        "@var a; main { repeat 1000 { repeat 997 { } if a { a = 1; } else { a = 2; } } a = 3; }",
    ),
    (
        12,
        "@var a; main { repeat 1000 { repeat 997 { } if a { } else { a = 2; a = 3; } } }",
    ),
    (
        12,
        "@var a; main { repeat 1000 { repeat 997 { } if a { a = 2; a = 3; } else { } } }",
    ),
    (0, "main { repeat 1000 { repeat 997 { } atomic { } } }"),
    (12, "@main { repeat 1000 { repeat 998 { } atomic { } } }"),
    (
        0,
        "var a; main { repeat 1000 { repeat 998 { } together a; } }",
    ),
    (
        12,
        "@var a; main { repeat 1000 { repeat 999 { } together a; } }",
    ),
    (
        0,
        "var a; main { repeat 1000 { repeat 998 { } a = in 1; } }",
    ),
    (
        12,
        "@var a; main { repeat 1000 { repeat 998 { } a = in 1; } together a; }",
    ),
    (
        12,
        "@main { repeat 1000 { repeat 1000 { repeat 1000 { repeat 1000 { repeat 1000 { repeat 1000 { repeat 1000 { } } } } } } } }",
    ),
    (0, "var a; main { repeat 16 { repeat 256 { a = in 1; } } }"),
    (
        12,
        "@var a; main { repeat 16 { repeat 256 { a = in 1; } } a = in 1; }",
    ),
    (
        12,
        "@var a; main { a = in 1; repeat 16 { repeat 256 { a = in 1; } } }",
    ),
    (
        0,
        "var a; main { repeat 4 { repeat 1000 { a = in 1; } } repeat 96 { a = in 1; } }",
    ),
    (
        12,
        "@var a; main { repeat 4 { repeat 1000 { a = in 1; } } repeat 97 { a = in 1; } }",
    ),
    (
        0,
        "var a; main { if a { repeat 16 { repeat 256 { a = in 1; } } } else { repeat 16 { repeat 256 { a = in 2; } } } }",
    ),
    (
        12,
        "@var a; main { if a { a = 1; } else { repeat 16 { repeat 256 { a = in 2; } } } a = in 3; }",
    ),
    (
        12,
        "@var a; main { repeat 1000 { repeat 5 { a = in 1; } } }",
    ),
];

// None where the script is refused.
static COUNTED: [(&str, Option<Counts>); 15] = [
    ("main { }", Some((0, 0, 0, 0, 5))),
    (
        "cell c = 0; fresh x; main { atomic { x = in 12; c = x; } }",
        Some((1, 1, 4, 1, 30)),
    ),
    (
        "cell c = 0; fresh x; main { x = in 12; c = x; }",
        Some((1, 1, 2, 1, 18)),
    ),
    ("var a; main { if a { } }", Some((0, 1, 1, 0, 10))),
    // the steps of the else block, and the readings of the other
    (
        "var a; main { if a { a = in 1; } else { a = 1; a = 2; } }",
        Some((0, 1, 3, 1, 20)),
    ),
    (
        "var a; main { if a { if a { a = 1; } } else { } }",
        Some((0, 1, 3, 0, 20)),
    ),
    (
        "var a; main { if a { } else { if a { } else { a = in 1; } a = in 2; } }",
        Some((0, 1, 4, 2, 25)),
    ),
    // 3 * (1 + 1 + 2 * (1 + 1)) steps
    (
        "var a; main { repeat 3 { a = in 1; repeat 2 { a = 1; } } }",
        Some((0, 1, 18, 3, 95)),
    ),
    // 2 * (1 + 2 + 3 * (1 + 1)) steps
    (
        "var a; main { repeat 2 { atomic { repeat 3 { a = in 1; } } } }",
        Some((0, 1, 18, 6, 95)),
    ),
    (
        "cell c = 0; cell d = 1; var a; main { atomic { atomic { a = 1; } } together c, d; }",
        Some((2, 1, 6, 0, 49)),
    ),
    (
        "var a; main { a = 1 + 2 * (a - 3) < a; }",
        Some((0, 1, 1, 0, 10)),
    ),
    (
        "main { repeat 1000 { repeat 999 { } } }",
        Some((0, 0, 1000000, 0, 5000005)),
    ),
    // 16 * (1 + 256 * (1 + 1)) steps
    (
        "var a; main { repeat 16 { repeat 256 { a = in 1; } } }",
        Some((0, 1, 8208, 4096, 41045)),
    ),
    (
        "var a; var b; fresh x; cell c = 0; fresh y; cell d = 0; main { }",
        Some((2, 4, 0, 0, 7)),
    ),
    ("main { repeat 0 { } }", None),
];

#[test]
fn how_many_names(rt: HostRuntime) -> Result<(), Fail> {
    all_long_agree(&rt, rt.alloc(), Layer::Names, &MANY)
}

#[test]
fn declared_once_and_declared(rt: HostRuntime) -> Result<(), Fail> {
    all_agree(&rt, rt.alloc(), Layer::Names, &DECLARED)
}

#[test]
fn readings_and_counts_of_turns(rt: HostRuntime) -> Result<(), Fail> {
    all_agree(&rt, rt.alloc(), Layer::Names, &READINGS)
}

#[test]
fn steps_and_readings_at_most(rt: HostRuntime) -> Result<(), Fail> {
    all_agree(&rt, rt.alloc(), Layer::Names, &AMOUNTS)
}

fn all_counts_agree(rt: &impl Abort, cases: &[(&str, Option<Counts>)]) {
    for (text, counts) in cases {
        assert_eq!(rt; counted(text.as_bytes()).ok(), *counts, "{}", *text);
    }
}

#[test]
fn what_is_counted(rt: HostRuntime) {
    all_counts_agree(&rt, &COUNTED);
}

// (0 + 1) * (64 + 5)
#[test]
fn a_full_table_is_counted(rt: HostRuntime) -> Result<(), Fail> {
    let text = written(
        rt.alloc(),
        &[("cell c#=0;", 64), ("fresh x#;", 64), ("main { }", 1)],
    )?;
    assert_eq!(rt; counted(text.as_slice()), Ok((64, 64, 0, 0, 69)));
    Ok(())
}
