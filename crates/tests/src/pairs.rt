// Scripts with two faults or more: the question with the lower number refuses, wherever its fault stands.
use crate::ask::{Case, Long, all_agree, all_long_agree};
use script::fault::Layer;
use std::test::Fail;

static LONG_TEXTS: [Long; 8] = [
    (1, 8192, &[("$", 1), (" ", 8192)]),
    (2, 0, &[("$", 1), (" ", 8191)]),
    (1, 8192, &[("(", 8193)]),
    (2, 2050, &[(";", 2050), ("$", 1)]),
    (3, 2050, &[(";", 2050), ("2147483648", 1)]),
    (4, 2048, &[("}", 2049)]),
    (5, 0, &[("}", 2048)]),
    // 65 * 11 + 7
    (6, 722, &[("cell c#=0;", 65), ("main { ;", 1)]),
];

static TEXTS: [Case; 13] = [
    (2, "var abcdefghijklmnopqrstuvwxy; main { } @$"),
    (2, "cell c = 2147483648; main { } } @$"),
    (2, "; ; @$"),
    (2, "main { a = 1; @$ }"),
    (3, "main { } } @2147483648"),
    (3, "; @abcdefghijklmnopqrstuvwxy"),
    (3, "main { a = in 16; repeat @2147483648 { } }"),
    (5, "; main { } @}"),
    (5, "a = a < b < c @}"),
    (6, "var a; var a; main { @; }"),
    (6, "main { a = 1; } @;"),
    (6, "main { repeat 0 { } @"),
    (6, "fresh x; main { x = in 1; if x { } else @}"),
];

// 9 * 64 + 5, and 9 + 5 where 7 says yes; 6 + 6 + 11 * 64 + 5 after two declarations of one name
static LONG_NAMES: [Long; 4] = [
    (7, 581, &[("cell c=0;", 65), ("main { }", 1)]),
    (8, 14, &[("cell c=0;", 64), ("main { }", 1)]),
    (
        7,
        721,
        &[("var a;", 2), ("cell c#=0;", 65), ("main { }", 1)],
    ),
    (7, 709, &[("cell c#=0;", 65), ("main { a = in 16; }", 1)]),
];

static NAMES: [Case; 14] = [
    (8, "var a; var @a; main { b = 1; }"),
    (8, "cell a = 0; var @a; main { a = in 16; }"),
    (9, "cell c = 0; main { c = in 1; @a = 1; }"),
    (9, "main { repeat 0 { @a = 1; } }"),
    (9, "main { @a = in 16; }"),
    (9, "main { repeat 1000 { repeat 1000 { } } @a = 1; }"),
    (9, "fresh x; main { x = in 1; if x { } together @y; }"),
    (10, "cell c = 0; main { repeat 0 { @c = in 1; } }"),
    (10, "cell c = 0; main { @c = in 16; }"),
    (
        10,
        "cell c = 0; fresh x; main { x = in 1; c = x; @c = in 2; }",
    ),
    (11, "main { repeat 1000 { repeat 1000 { } } repeat @0 { } }"),
    (
        11,
        "cell c = 0; fresh x; main { x = in 1; c = x; repeat @0 { } }",
    ),
    (
        12,
        "@cell c = 0; fresh x; main { x = in 1; c = x; repeat 1000 { repeat 1000 { } } }",
    ),
    (
        12,
        "@fresh x; main { repeat 1000 { repeat 5 { x = in 1; } } if x { } }",
    ),
];

#[test]
fn in_a_long_text(rt: HostRuntime) -> Result<(), Fail> {
    all_long_agree(&rt, rt.alloc(), Layer::Text, &LONG_TEXTS)
}

#[test]
fn in_a_text(rt: HostRuntime) -> Result<(), Fail> {
    all_agree(&rt, rt.alloc(), Layer::Text, &TEXTS)
}

#[test]
fn in_many_names(rt: HostRuntime) -> Result<(), Fail> {
    all_long_agree(&rt, rt.alloc(), Layer::Names, &LONG_NAMES)
}

#[test]
fn in_names(rt: HostRuntime) -> Result<(), Fail> {
    all_agree(&rt, rt.alloc(), Layer::Names, &NAMES)
}
