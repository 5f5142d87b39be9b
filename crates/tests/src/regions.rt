// Question 13: no use stands old.
use crate::ask::{Case, Long, all_agree, all_long_agree};
use script::fault::Layer;
use std::test::Fail;

static KNOWN: [Long; 6] = [
    (
        13,
        43,
        &[("cell c = 0; fresh x; main { x = in 12; c = x; }", 1)],
    ),
    (
        0,
        0,
        &[(
            "cell c = 0; fresh x; main { atomic { x = in 12; c = x; } }",
            1,
        )],
    ),
    (
        13,
        52,
        &[(
            "cell c = 0; fresh x; main { repeat 2 { atomic { c = x; x = in 1; } } }",
            1,
        )],
    ),
    (
        0,
        0,
        &[(
            "cell c = 0; fresh x; main { atomic { repeat 2 { c = x; x = in 1; } } }",
            1,
        )],
    ),
    (
        13,
        80,
        &[(
            "cell c = 0; var a; fresh x; main { a = in 8; if a < 500 { x = 1; } atomic { c = x; } }",
            1,
        )],
    ),
    (0, 0, &[("main { }", 1)]),
];

// With as many names as there can be, the last one stands old at 704 + 640 + 22. In the next four a
// reading comes one name further at each walk of the body, until it reaches `c00`, whose use stands
// 704 + 6 + 27 bytes in, and 11 * 14 more below 14 more repeats. The last two have as many repeats as
// 2048 tokens can hold, with the use at 16 + 507 * 13 + 14.
static LONGEST: [Long; 8] = [
    (
        13,
        1366,
        &[
            ("cell c#=0;", 64),
            ("fresh x#;", 64),
            ("main { x63 = in 1; if x63 { } }", 1),
        ],
    ),
    (
        0,
        0,
        &[
            ("cell c#=0;", 64),
            ("fresh x#;", 64),
            ("main { x63 = in 1; x62 = x61; if x62 { } }", 1),
        ],
    ),
    (
        13,
        737,
        &[
            ("cell c#=0;", 64),
            ("var a;", 1),
            ("main { repeat 2 { together c00; ", 1),
            ("c#=c%;", 63),
            ("c63=a; a=in 1; } }", 1),
        ],
    ),
    (
        0,
        0,
        &[
            ("cell c#=0;", 64),
            ("var a;", 1),
            ("main { repeat 2 { together c00; ", 1),
            ("c#=c%;", 63),
            ("c63=a; a=1; } }", 1),
        ],
    ),
    (
        13,
        891,
        &[
            ("cell c#=0;", 64),
            ("var a;", 1),
            ("main { ", 1),
            ("repeat 1 { ", 15),
            ("together c00; ", 1),
            ("c#=c%;", 63),
            ("c63=a; a=in 1; ", 1),
            ("} ", 16),
        ],
    ),
    (
        0,
        0,
        &[
            ("cell c#=0;", 64),
            ("var a;", 1),
            ("main { ", 1),
            ("repeat 1 { ", 15),
            ("together c00; ", 1),
            ("c#=c%;", 63),
            ("c63=a; a=1; ", 1),
            ("} ", 16),
        ],
    ),
    (0, 0, &[("main { ", 1), ("repeat 1 { } ", 511), ("}", 1)]),
    (
        13,
        6621,
        &[
            ("fresh x; main { ", 1),
            ("repeat 1 { } ", 507),
            ("repeat 1 { if x { } x = in 1; } }", 1),
        ],
    ),
];

static ASSIGNED: [Case; 23] = [
    (0, "fresh x; main { if x { } x = x; }"),
    (0, "fresh x; main { x = in 1; x = in 2; x = 3; if x { } }"),
    (
        0,
        "cell c = 0; var a; main { a = in 1; c = a; if a < c { } a = a + 1; }",
    ),
    (13, "fresh x; main { x = in 1; if @x { } }"),
    (13, "fresh x; main { x = in 1; x = @x + 1; }"),
    (13, "fresh x; main { x = in 1; x = 1 + (2 * @x) - x; }"),
    (13, "fresh x; main { x = in 1; x = 0 == @x; }"),
    (
        13,
        "fresh x; fresh y; main { y = in 1; x = in 2; if @y + x { } }",
    ),
    (13, "fresh x; fresh y; main { y = in 1; if x + @y { } }"),
    (13, "var a; fresh x; main { a = in 1; x = a; if @x { } }"),
    (
        13,
        "var a; var b; fresh x; main { b = in 1; x = a * 2 + b; if @x { } }",
    ),
    (
        13,
        "var a; var b; fresh x; main { b = in 1; x = b < a; if @x { } }",
    ),
    (
        13,
        "cell c = 0; var a; fresh x; main { a = in 1; c = a; x = -1 / (c); if @x { } }",
    ),
    (
        0,
        "var a; fresh x; main { a = in 1; x = a; a = 0; x = a; if x { } }",
    ),
    (
        13,
        "var a; fresh x; main { a = in 1; x = a; a = 0; if @x { } }",
    ),
    (0, "var a; main { together a; a = in 1; }"),
    (13, "var a; main { a = in 1; together @a; }"),
    (13, "var a; main { a = in 1; together @a; together a; }"),
    (
        13,
        "cell c = 0; cell d = 0; var a; main { a = in 1; d = a; together c, @d, a; }",
    ),
    (
        13,
        "cell c = 0; cell d = 0; var a; main { a = in 1; d = a; c = a; d = 0; together d, @c; }",
    ),
    (
        0,
        "cell c = 0; cell d = 0; var a; main { a = in 1; d = a; d = 0; together c, d; }",
    ),
    (13, "fresh x; main { x = in 1; together @x; }"),
    (
        13,
        "var a; fresh x; main { a = in 1; together @a, a; x = in 1; if x { } }",
    ),
];

static ATOMICS: [Case; 18] = [
    (
        0,
        "var a; cell c = 0; main { atomic { a = in 1; c = a; together a, c; } }",
    ),
    (
        13,
        "var a; cell c = 0; main { atomic { a = in 1; c = a; } together @c; }",
    ),
    (13, "fresh x; main { x = in 1; atomic { if @x { } } }"),
    (13, "fresh x; main { atomic { x = in 1; } if @x { } }"),
    (
        13,
        "fresh x; main { atomic { x = in 1; if x { } } atomic { if @x { } } }",
    ),
    (
        0,
        "fresh x; main { atomic { x = in 1; } x = 0; atomic { if x { } } }",
    ),
    (
        0,
        "fresh x; main { atomic { x = in 1; atomic { if x { } } if x { } } }",
    ),
    (
        0,
        "fresh x; main { atomic { atomic { x = in 1; } if x { } } }",
    ),
    (
        13,
        "fresh x; main { atomic { atomic { x = in 1; } if x { } } if @x { } }",
    ),
    (
        0,
        "fresh x; main { atomic { x = in 1; repeat 2 { atomic { } } if 1 { atomic { } } if x { } } }",
    ),
    (
        13,
        "fresh x; main { atomic { x = in 1; } repeat 2 { atomic { } if @x { } } }",
    ),
    (
        13,
        "var a; fresh x; main { atomic { a = in 1; x = a; if x { } } if @x { } }",
    ),
    (
        13,
        "var a; var b; fresh x; main { b = in 1; atomic { a = in 1; x = a + b; if @x { } } }",
    ),
    (
        13,
        "var a; fresh x; main { atomic { a = in 1; } atomic { x = a; if @x { } } }",
    ),
    (
        13,
        "fresh x; main { atomic { x = in 1; together x; } together @x; }",
    ),
    (
        0,
        "fresh x; main { repeat 2 { atomic { x = in 1; if x { } } } }",
    ),
    (
        0,
        "cell c = 0; fresh x; main { repeat 2 { x = 0; atomic { c = x; x = in 1; } } }",
    ),
    (
        13,
        "fresh x; main { atomic { atomic { } x = in 1; atomic { } } atomic { atomic { if @x { } } } }",
    ),
];

static BRANCHES: [Case; 24] = [
    (13, "fresh x; main { if 1 { x = in 1; } if @x { } }"),
    (
        13,
        "fresh x; main { if 1 { x = 1; } else { x = in 2; } if @x { } }",
    ),
    (
        13,
        "fresh x; main { if 1 { x = in 2; } else { x = 1; } if @x { } }",
    ),
    (
        0,
        "var a; fresh x; main { x = in 1; if a { x = 1; } else { x = 2; } if x { } }",
    ),
    (
        13,
        "var a; fresh x; main { x = in 1; if a { x = 1; } if @x { } }",
    ),
    (
        13,
        "var a; fresh x; main { x = in 1; if a { x = 1; } else { } if @x { } }",
    ),
    (
        13,
        "var a; fresh x; main { x = in 1; if a { x = 1; } else { if @x { } } }",
    ),
    (0, "fresh x; main { if x { x = in 1; } else { if x { } } }"),
    (
        13,
        "var a; fresh x; main { a = in 1; if a { x = 1; } if @x { } }",
    ),
    (
        13,
        "var a; fresh x; main { a = in 1; if a { } else { x = 1; } if @x { } }",
    ),
    (
        13,
        "var a; fresh x; main { a = in 1; if a { x = 1; } else { x = 1; } if @x { } }",
    ),
    (
        0,
        "var a; fresh x; main { a = in 1; if a { x = 1; if x { } } else { if x { } } }",
    ),
    (
        0,
        "var a; var b; fresh x; main { a = in 1; if a { b = 1; } if x { } }",
    ),
    (
        13,
        "var a; var b; fresh x; main { a = in 1; if a { if b { x = 1; } } if @x { } }",
    ),
    (
        13,
        "var a; fresh x; main { a = in 1; if a { repeat 2 { atomic { x = 1; } } } if @x { } }",
    ),
    (
        13,
        "var a; var b; fresh x; main { a = in 1; if b { if a { x = 1; } if @x { } } }",
    ),
    // the condition stands old also after the branches have set its name
    (
        13,
        "var a; fresh x; main { a = in 1; if a { a = 1; } else { a = 2; } x = a; if @x { } }",
    ),
    (
        0,
        "var a; fresh x; main { if a { a = in 1; } else { x = 2; } if x { } }",
    ),
    (
        0,
        "var a; fresh x; main { atomic { if a { x = in 1; } else { x = 2; } if x { } } }",
    ),
    (
        13,
        "var a; fresh x; main { atomic { if a { x = in 1; } else { x = 2; } if x { } } if @x { } }",
    ),
    (
        13,
        "var a; fresh x; main { atomic { a = in 1; if a { x = 1; } if x { } } if @x { } }",
    ),
    // a reading in a region stands now, and the condition before it old
    (
        13,
        "var a; fresh x; main { a = in 1; atomic { if a { x = in 2; if x { } } if @x { } } }",
    ),
    (
        13,
        "var a; fresh x; main { if a { atomic { x = in 1; } } else { atomic { x = 1; } } if @x { } }",
    ),
    (
        13,
        "var a; cell c = 0; main { a = in 1; if a { c = 1; } else { c = 2; } together @c; }",
    ),
];

static TURNS: [Case; 20] = [
    (13, "fresh x; main { repeat 2 { if @x { } x = in 1; } }"),
    // the check does not look at how many turns there are
    (13, "fresh x; main { repeat 1 { if @x { } x = in 1; } }"),
    (
        0,
        "fresh x; main { repeat 2 { x = 1; if x { } x = in 1; } }",
    ),
    (
        0,
        "fresh x; main { x = in 1; repeat 2 { x = 1; } if x { } }",
    ),
    (
        13,
        "fresh x; main { repeat 2 { x = 1; x = in 1; } if @x { } }",
    ),
    // four walks of the body: the reading comes to a, then b, then x
    (
        13,
        "var a; var b; fresh x; main { repeat 2 { if @x { } x = b; b = a; a = in 1; } }",
    ),
    (
        0,
        "var a; var b; fresh x; main { repeat 2 { if x { } x = b; b = a; a = 1; } }",
    ),
    (
        13,
        "var a; var b; fresh x; main { repeat 2 { x = b; b = a; a = in 1; } if @x { } }",
    ),
    (
        13,
        "var a; fresh x; main { repeat 2 { if @x { } repeat 2 { x = a; a = in 1; } } }",
    ),
    (
        0,
        "fresh x; main { repeat 2 { x = 1; repeat 2 { if x { } } x = in 1; } }",
    ),
    (
        13,
        "fresh x; main { repeat 2 { repeat 2 { if @x { } } x = in 1; } }",
    ),
    (
        13,
        "fresh x; fresh y; main { repeat 2 { if @x { } if y { } x = y; y = in 1; } }",
    ),
    (
        13,
        "fresh x; fresh y; main { repeat 2 { if x { } if @y { } x = 0; y = in 1; } }",
    ),
    (
        13,
        "var a; fresh x; main { repeat 2 { if a { x = 1; } a = in 1; } if @x { } }",
    ),
    (
        13,
        "var a; fresh x; main { repeat 2 { together @a; repeat 3 { atomic { a = in 1; } } } }",
    ),
    (
        0,
        "var a; fresh x; main { atomic { repeat 2 { repeat 3 { if x { } x = a; a = in 1; } } } }",
    ),
    (
        13,
        "var a; fresh x; main { repeat 2 { atomic { repeat 3 { if @x { } x = a; a = in 1; } } } }",
    ),
    (
        0,
        "fresh x; main { repeat 2 { repeat 2 { atomic { x = in 1; if x { } } x = 0; } if x { } } }",
    ),
    (
        13,
        "fresh x; main { repeat 2 { repeat 2 { atomic { x = in 1; if x { } } } if @x { } } }",
    ),
    (
        13,
        "var a; fresh x; main { repeat 2 { if 1 { repeat 2 { x = a; } if @x { } } else { a = in 1; } } }",
    ),
];

#[test]
fn known_scripts(rt: HostRuntime) -> Result<(), Fail> {
    all_long_agree(&rt, rt.alloc(), Layer::Regions, &KNOWN)
}

#[test]
fn long_scripts(rt: HostRuntime) -> Result<(), Fail> {
    all_long_agree(&rt, rt.alloc(), Layer::Regions, &LONGEST)
}

#[test]
fn what_is_assigned(rt: HostRuntime) -> Result<(), Fail> {
    all_agree(&rt, rt.alloc(), Layer::Regions, &ASSIGNED)
}

#[test]
fn regions_one_in_another(rt: HostRuntime) -> Result<(), Fail> {
    all_agree(&rt, rt.alloc(), Layer::Regions, &ATOMICS)
}

#[test]
fn either_branch(rt: HostRuntime) -> Result<(), Fail> {
    all_agree(&rt, rt.alloc(), Layer::Regions, &BRANCHES)
}

#[test]
fn turn_after_turn(rt: HostRuntime) -> Result<(), Fail> {
    all_agree(&rt, rt.alloc(), Layer::Regions, &TURNS)
}
