// A refusal leaves what it refused to change.
use crate::ask::{counts, expected};
use checker::accepted::Accepted;
use reader::drive::Script;
use script::fault::Layer;
use std::process::Abort;

const TAKEN: &[u8] = b"cell c = 0; fresh x; main { atomic { x = in 12; c = x; } }";

// Read and not accepted: the use stands at 55.
const READ_ONLY: &[u8] = b"cell c = 0; cell d = 0; fresh x; main { x = in 12; c = x; }";

// One that each of questions 2 to 12 refuses, with its place, but for 4 and 7.
static REFUSED: [(&str, (u8, usize, Layer)); 9] = [
    ("cell d = 0; main { $ }", (2, 19, Layer::Text)),
    ("cell d = 2147483648; main { }", (3, 9, Layer::Text)),
    ("cell d = 0; main { } }", (5, 21, Layer::Text)),
    ("cell d = 0; main { d = 1; ", (6, 26, Layer::Text)),
    ("cell d = 0; cell d = 1; main { }", (8, 17, Layer::Names)),
    ("cell d = 0; main { d = e; }", (9, 23, Layer::Names)),
    ("cell d = 0; main { d = in 1; }", (10, 19, Layer::Names)),
    ("cell d = 0; main { repeat 0 { } }", (11, 26, Layer::Names)),
    (
        "cell d = 0; main { repeat 1000 { repeat 1000 { } } }",
        (12, 0, Layer::Names),
    ),
];

fn all_leave(rt: &impl Abort, script: &mut Script) {
    for (text, (number, place, layer)) in &REFUSED {
        assert_eq!(rt;
            script.read(text.as_bytes()),
            expected(*number, *place, *layer)
        );
        assert_eq!(rt; counts(script), (1, 1, 4, 1, 30));
    }
}

#[test]
fn a_refused_reading_leaves_the_script(rt: HostRuntime) {
    let mut script = Script::new();
    assert_eq!(rt; counts(&script), (0, 0, 0, 0, 5));
    assert_eq!(rt; script.read(TAKEN), Ok(()));
    all_leave(&rt, &mut script);
    assert_eq!(rt; script.read(b"main { }"), Ok(()));
    assert_eq!(rt; counts(&script), (0, 0, 0, 0, 5));
}

#[test]
fn a_refused_script_leaves_the_accepted_one(rt: HostRuntime) {
    let mut script = Script::new();
    let mut accepted = Accepted::new();
    assert_eq!(rt; counts(accepted.script()), (0, 0, 0, 0, 5));
    assert_eq!(rt; script.read(TAKEN), Ok(()));
    assert_eq!(rt; accepted.accept(&script), Ok(()));
    assert_eq!(rt; counts(accepted.script()), (1, 1, 4, 1, 30));
    assert_eq!(rt; script.read(READ_ONLY), Ok(()));
    assert_eq!(rt; accepted.accept(&script), expected(13, 55, Layer::Regions));
    assert_eq!(rt; counts(accepted.script()), (1, 1, 4, 1, 30));
    assert_eq!(rt; counts(&script), (2, 1, 2, 1, 21));
}

// Numbers that a caller may ask for by a cast, and that no contract speaks of.
#[test]
fn layers_have_their_numbers(rt: HostRuntime) {
    assert_eq!(rt; Layer::Text as u8, 0);
    assert_eq!(rt; Layer::Names as u8, 1);
    assert_eq!(rt; Layer::Regions as u8, 2);
    assert_eq!(rt; Layer::Run as u8, 3);
    assert_eq!(rt; Layer::Memory as u8, 4);
    assert_eq!(rt; Layer::Table as u8, 5);
    assert_eq!(rt; Layer::Host as u8, 6);
}
