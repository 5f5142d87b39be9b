// Questions 1 to 6: the text.
use crate::ask::{Case, Long, all_agree, all_long_agree, verdict};
use script::fault::Layer;
use std::process::Abort;
use std::test::Fail;

// The 2049th token of the last is the brace that closes the 683rd block: 682 * 8 + 7.
static SIZES: [Long; 6] = [
    (0, 0, &[("main { }", 1), (" ", 8184)]),
    (1, 8192, &[("main { }", 1), (" ", 8185)]),
    (1, 8192, &[("\n", 8193)]),
    (6, 8192, &[("\n", 8192)]),
    (1, 8192, &[("main { }", 1024), (";", 1)]),
    (4, 5463, &[("main { }", 1024)]),
];

// 3 + 3 + 6 + 4 * 509 = 2048 tokens, and 3 + 3 + 5 + 6 + 4 * 508 = 2049, of which the last stands at
// 33 + 7 * 508.
static TOKENS: [Long; 9] = [
    (
        0,
        0,
        &[("var a; main { a = 1 + 1; ", 1), ("a = 1; ", 509), ("}", 1)],
    ),
    (
        4,
        3589,
        &[
            ("var a; main { a = -1; a = 1 + 1; ", 1),
            ("a = 1; ", 508),
            ("}", 1),
        ],
    ),
    (6, 0, &[(";", 2048)]),
    (4, 2048, &[(";", 8192)]),
    (6, 0, &[("==", 2048)]),
    (4, 4096, &[("==", 2049)]),
    (4, 4096, &[("a ", 2049)]),
    (5, 16, &[("(", 2048)]),
    (4, 2048, &[("(", 2049)]),
];

// The parentheses begin at 18, the brace of the 16th atomic stands at 7 + 9 * 15 + 7, and the mixed
// parentheses begin at 45, with four braces open.
static DEPTHS: [Long; 10] = [
    (
        0,
        0,
        &[
            ("var a; main { a = ", 1),
            ("(", 15),
            ("1", 1),
            (")", 15),
            ("; }", 1),
        ],
    ),
    (
        5,
        33,
        &[
            ("var a; main { a = ", 1),
            ("(", 16),
            ("1", 1),
            (")", 16),
            ("; }", 1),
        ],
    ),
    (
        0,
        0,
        &[("main { ", 1), ("atomic { ", 15), ("} ", 15), ("}", 1)],
    ),
    (
        5,
        149,
        &[("main { ", 1), ("atomic { ", 16), ("} ", 16), ("}", 1)],
    ),
    (
        0,
        0,
        &[
            ("var a; main { repeat 1 { atomic { if a { a = ", 1),
            ("(", 12),
            ("1", 1),
            (")", 12),
            ("; } } } }", 1),
        ],
    ),
    (
        5,
        57,
        &[
            ("var a; main { repeat 1 { atomic { if a { a = ", 1),
            ("(", 13),
            ("1", 1),
            (")", 13),
            ("; } } } }", 1),
        ],
    ),
    (
        0,
        0,
        &[
            ("var a; main { if ", 1),
            ("(", 15),
            ("a", 1),
            (")", 15),
            (" { } }", 1),
        ],
    ),
    (
        0,
        0,
        &[("var a; main { ", 1), ("a = (1) + (2); ", 40), ("}", 1)],
    ),
    (6, 0, &[("(", 16), (")", 16)]),
    (5, 32, &[("(", 16), (")", 17)]),
];

static BYTES: [Case; 19] = [
    (0, "\t\r\n main\t{\r\n}\n"),
    (0, "main{}"),
    (2, "@$ main { }"),
    (2, "main { @? }"),
    (2, "main { } @#"),
    (2, "main { } @."),
    (2, "main {@\x0b}"),
    (2, "main {@\x0c}"),
    (2, "main {@\0}"),
    (2, "main {@\x7f}"),
    (2, "main { @\u{e9} }"),
    (2, "@\u{feff}main { }"),
    (2, "var a; main { a = a @> 1; }"),
    (2, "var a; main { a = @!a; }"),
    (2, "var a; main { a = a @& 1; }"),
    (2, "var a; main { a = a @% 2; }"),
    (6, "@// main\nmain { }"),
    (2, "@\"main\" { }"),
    (2, "main @[ ]"),
];

static TOO_LARGE: [Case; 21] = [
    (0, "var abcdefghijklmnopqrstuvwx; main { }"),
    (3, "var @abcdefghijklmnopqrstuvwxy; main { }"),
    (0, "fresh _23456789_123456789_1234; main { }"),
    (3, "fresh @_23456789_123456789_12345; main { }"),
    (3, "main { @abcdefghijklmnopqrstuvwxy = 1; }"),
    (0, "cell c = 2147483647; main { }"),
    (3, "cell c = @2147483648; main { }"),
    (0, "cell c = -2147483647; main { }"),
    (3, "cell c = -@2147483648; main { }"),
    (0, "cell c = 00002147483647; main { }"),
    (3, "cell c = @02147483648; main { }"),
    (
        0,
        "cell c = 0000000000000000000000000000000000000000; main { }",
    ),
    (
        0,
        "cell c = 0000000000000000000000000000000000000001; main { }",
    ),
    (3, "cell c = @9999999999; main { }"),
    (
        3,
        "cell c = @99999999999999999999999999999999999999; main { }",
    ),
    (3, "main { repeat @4294967297 { } }"),
    (3, "main { repeat @18446744073709551617 { } }"),
    (0, "var a; main { a = 2147483647 * -2147483647; }"),
    (3, "var a; main { a = (1 + @2147483648); }"),
    (
        3,
        "var @abcdefghijklmnopqrstuvwxy; cell c = 2147483648; main { }",
    ),
    (
        3,
        "cell c = @2147483648; var abcdefghijklmnopqrstuvwxy; main { }",
    ),
];

static BELOW: [Case; 12] = [
    (5, "main { } @}"),
    (5, "@) main { }"),
    (5, "@} main {"),
    (5, "main { } @) }"),
    (5, "main @} {"),
    (5, "main { } @} }"),
    (6, "main { @)"),
    (5, "main { ) @}"),
    (6, "main { @( }"),
    (6, "var a; main { a = (1@};"),
    (6, "var a; main { a = (1)@);"),
    (5, "var a; main { a = (1)); @}"),
];

static UNFINISHED: [Case; 16] = [
    (6, "@"),
    (6, "  \n@"),
    (6, "main@"),
    (6, "main {@"),
    (6, "main {   @"),
    (6, "cell@"),
    (6, "cell c = -@"),
    (6, "var a@"),
    (6, "var a;@"),
    (6, "main { a = (1@"),
    (6, "main { a = 1@"),
    (6, "main { a = in@"),
    (6, "main { if a { }@"),
    (6, "main { if a { } else@"),
    (6, "main { repeat 2@"),
    (6, "main { together a,@"),
];

static DECLARATIONS: [Case; 26] = [
    (0, "cell c=-1;var a;fresh x;main{}"),
    (
        0,
        "var cells; var mains; var ins; var iff; var Main; var _; var __1; main { }",
    ),
    (6, "@{ }"),
    (6, "@a = 1; main { }"),
    (6, "cell @= 0; main { }"),
    (6, "cell c @; main { }"),
    (6, "cell c = @; main { }"),
    (6, "cell c = - @- 1; main { }"),
    (6, "cell c = @d; main { }"),
    (6, "cell c = @(1); main { }"),
    (6, "cell c = 1 @+ 2; main { }"),
    (6, "cell c = 1 @main { }"),
    (6, "cell c = @in 1; main { }"),
    (6, "cell @1a = 0; main { }"),
    (6, "var a @= 0; main { }"),
    (6, "var a@, b; main { }"),
    (6, "fresh @1; main { }"),
    (6, "var @cell; main { }"),
    (6, "var @main; main { }"),
    (6, "var @in; main { }"),
    (6, "fresh @fresh; main { }"),
    (6, "fresh @together; main { }"),
    (6, "main { } @main { }"),
    (6, "main { } @;"),
    (6, "main { } @cell c = 0;"),
    (6, "cell c = 0; @c = 1; main { }"),
];

static EXPRESSIONS: [Case; 31] = [
    (0, "var a;main{if(a){a=1;}else{a=-1;}}"),
    (
        0,
        "var a;main{a=a--1;a=a-1;a=-1-1;a=a<1;a=a==1;a=(a<1)==(a<2);}",
    ),
    (
        0,
        "var a; main { a = 1 - - 1 * - 2 / a; a = ((a < 1)) + 1; }",
    ),
    (6, "var a; var b; var c; main { a = a < b @< c; }"),
    (6, "var a; var b; var c; main { a = a == b @== c; }"),
    (6, "var a; var b; var c; main { a = a < b @== c; }"),
    (6, "var a; main { a = (a < 1 @< 2); }"),
    (6, "var a; main { if a == 1 @< 2 { } }"),
    (6, "var a; main { a = - @a; }"),
    (6, "var a; main { a = - @(1); }"),
    (6, "var a; main { a = 1 - - @- 1; }"),
    (6, "var a; main { a = 1 @1; }"),
    (6, "var a; main { a = 1@a; }"),
    (6, "var a; main { a = a @(1); }"),
    (6, "var a; main { a = (@); }"),
    (6, "var a; main { a = (1 @; }"),
    (6, "var a; main { a = @; }"),
    (6, "var a; main { a = @* 2; }"),
    (6, "var a; main { a = 2 * @; }"),
    (6, "var a; main { a = @+ 2; }"),
    (6, "var a; main { a = 2 + @/ 2; }"),
    (6, "var a; main { a = @< 2; }"),
    (6, "var a; main { a = a @= 1; }"),
    (6, "var a; main { a = a ==@= 1; }"),
    (6, "var a; main { a = @== 1; }"),
    (6, "var a; main { a = 1@, 2; }"),
    (6, "var a; main { a = @if; }"),
    (6, "var a; main { a = (@in 1); }"),
    (6, "var a; main { a = 1 + @in 1; }"),
    (6, "var a; main { a = in 1 @+ 1; }"),
    (6, "var a; main { a = 1 @}"),
];

static STATEMENTS: [Case; 35] = [
    (
        0,
        "var a; main { if a { } if a { } else { } repeat 2 { } atomic { } together a, a; a = in 1; }",
    ),
    (6, "main { @; }"),
    (6, "main { @1 = 2; }"),
    (6, "main { @{ } }"),
    (6, "main { @var a; }"),
    (6, "main { @main { } }"),
    (6, "main { @(a) = 1; }"),
    (6, "main { a @; }"),
    (6, "main { a @== 1; }"),
    (6, "main { a @+= 1; }"),
    (6, "main { a@, b = 1; }"),
    (6, "main { a = in @a; }"),
    (6, "main { a = in @; }"),
    (6, "main { a = in @- 1; }"),
    (6, "main { a = in @(1); }"),
    (6, "main { @in = 1; }"),
    (6, "main { if @{ } }"),
    (6, "main { if a @; }"),
    (6, "main { if a < @{ } }"),
    (6, "main { if a { } else @if a { } }"),
    (6, "main { if a { } else @; }"),
    (6, "main { if a { } else { } @else { } }"),
    (6, "main { @else { } }"),
    (6, "main { repeat 2 { } @else { } }"),
    (6, "main { repeat @{ } }"),
    (6, "main { repeat @a { } }"),
    (6, "main { repeat @- 1 { } }"),
    (6, "main { repeat 1 @+ 1 { } }"),
    (6, "main { repeat2 @{ } }"),
    (6, "main { atomic @; }"),
    (6, "main { atomic @a = 1; }"),
    (6, "main { together @; }"),
    (6, "main { together a @b; }"),
    (6, "main { together a, @; }"),
    (6, "main { together @1; }"),
];

#[test]
fn how_long_a_text_may_be(rt: HostRuntime) -> Result<(), Fail> {
    all_long_agree(&rt, rt.alloc(), Layer::Text, &SIZES)
}

#[test]
fn which_bytes_a_text_has(rt: HostRuntime) -> Result<(), Fail> {
    all_agree(&rt, rt.alloc(), Layer::Text, &BYTES)
}

#[test]
fn how_large_names_and_numbers_are(rt: HostRuntime) -> Result<(), Fail> {
    all_agree(&rt, rt.alloc(), Layer::Text, &TOO_LARGE)
}

#[test]
fn how_many_tokens(rt: HostRuntime) -> Result<(), Fail> {
    all_long_agree(&rt, rt.alloc(), Layer::Text, &TOKENS)
}

#[test]
fn how_deep(rt: HostRuntime) -> Result<(), Fail> {
    all_long_agree(&rt, rt.alloc(), Layer::Text, &DEPTHS)
}

#[test]
fn never_below_none_open(rt: HostRuntime) -> Result<(), Fail> {
    all_agree(&rt, rt.alloc(), Layer::Text, &BELOW)
}

#[test]
fn a_text_that_ends_early(rt: HostRuntime) -> Result<(), Fail> {
    all_agree(&rt, rt.alloc(), Layer::Text, &UNFINISHED)
}

#[test]
fn what_declares(rt: HostRuntime) -> Result<(), Fail> {
    all_agree(&rt, rt.alloc(), Layer::Text, &DECLARATIONS)
}

#[test]
fn what_an_expression_is(rt: HostRuntime) -> Result<(), Fail> {
    all_agree(&rt, rt.alloc(), Layer::Text, &EXPRESSIONS)
}

#[test]
fn what_a_statement_is(rt: HostRuntime) -> Result<(), Fail> {
    all_agree(&rt, rt.alloc(), Layer::Text, &STATEMENTS)
}

// A blank stands after each token, but for the last.
const WHOLE: &str =
    "cell c = 0 ; cell d = - 12 ; var a ; fresh x ; main { a = in 3 ; if a < 4 { x = 1 ; } \
else { x = ( 2 + a * 3 ) / - 5 - d ; } repeat 10 { atomic { x = in 1 ; c = x ; together c , d ; } } \
if ( a == 1 ) == 0 { a = ( ( a ) ) + 1 ; } repeat 2 { repeat 3 { if a == a { } else { d = 0 ; } } } \
atomic { atomic { x = in 15 ; if x < d { c = - 1 ; } } } c = a - 2147483647 ; c = 5 ; together c ; }";

// What begins a script is refused at its end, or at a token that the cut has changed.
fn all_cuts_agree(rt: &impl Abort, text: &[u8]) {
    for (i, b) in text.iter().enumerate() {
        let refused = verdict(&text[..i]).err();
        assert_eq!(rt;
            refused.map(|f| (f.number, f.layer)),
            Some((6, Layer::Text)),
            "{}",
            i
        );
        if *b == b' ' {
            assert_eq!(rt; refused.map(|f| f.place), Some(i));
        }
    }
}

#[test]
fn a_script_cut_short(rt: HostRuntime) {
    assert_eq!(rt; verdict(WHOLE.as_bytes()), Ok(()));
    all_cuts_agree(&rt, WHOLE.as_bytes());
}
