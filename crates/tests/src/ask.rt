// What the tests ask of a script.
use checker::accepted::Accepted;
use reader::drive::Script;
use script::fault::{Fault, Layer};
use std::alloc::{AllocError, Global};
use std::process::Abort;
use std::test::Fail;

// The number of the question that refuses, 0 for none, and the script, `@` before its fault. It is the
// number that docs/REFUSALS.md promises, and not a `Refusal`, whose own numbers are under test here; 0 for
// none keeps a case on one line.
pub type Case = (u8, &'static str);

// The pieces of a long text, each with how many times it stands. A `#` is the turn, from 0, in two
// digits, and a `%` the next turn.
pub type Pieces = &'static [(&'static str, usize)];

// The number, 0 for none as in a `Case`, and the place that a long text is refused with.
pub type Long = (u8, usize, Pieces);

// Cells, locals, steps, readings and need, as a tuple so that a case stays on one line.
pub type Counts = (usize, usize, u64, u64, u64);

pub(crate) fn verdict(text: &[u8]) -> Result<(), Fault> {
    let mut script = Script::new();
    script.read(text)?;
    Accepted::new().accept(&script)
}

pub(crate) fn expected(number: u8, place: usize, layer: Layer) -> Result<(), Fault> {
    match number {
        0 => Ok(()),
        _ => Err(Fault {
            number,
            place,
            layer,
        }),
    }
}

// The text without its mark, and the place of the mark.
fn unmarked(heap: Global, marked: &[u8]) -> Result<(Vec<u8>, usize), AllocError> {
    let mut text = Vec::new(heap);
    let mut place = 0;
    for b in marked {
        if *b == b'@' {
            place = text.len();
        } else {
            text.push(*b)?;
        }
    }
    Ok((text, place))
}

pub(crate) fn all_agree(
    rt: &impl Abort,
    heap: Global,
    layer: Layer,
    cases: &[Case],
) -> Result<(), Fail> {
    for (number, marked) in cases {
        let (text, place) = unmarked(heap, marked.as_bytes())?;
        assert_eq!(rt;
            verdict(text.as_slice()),
            expected(*number, place, layer),
            "{}",
            *marked
        );
    }
    Ok(())
}

fn digit(n: usize) -> u8 {
    (n % 10) as u8 + b'0'
}

fn put_number(text: &mut Vec<u8>, n: usize) -> Result<(), AllocError> {
    text.push(digit(n / 10))?;
    text.push(digit(n))?;
    Ok(())
}

fn put_piece(text: &mut Vec<u8>, piece: &[u8], turn: usize) -> Result<(), AllocError> {
    for b in piece {
        match *b {
            b'#' => put_number(text, turn)?,
            b'%' => put_number(text, turn.saturating_add(1))?,
            other => text.push(other)?,
        }
    }
    Ok(())
}

pub(crate) fn written(heap: Global, pieces: &[(&str, usize)]) -> Result<Vec<u8>, AllocError> {
    let mut text = Vec::new(heap);
    for (piece, times) in pieces {
        for turn in 0..*times {
            put_piece(&mut text, piece.as_bytes(), turn)?;
        }
    }
    Ok(text)
}

pub(crate) fn all_long_agree(
    rt: &impl Abort,
    heap: Global,
    layer: Layer,
    cases: &[Long],
) -> Result<(), Fail> {
    for (number, place, pieces) in cases {
        let text = written(heap, pieces)?;
        assert_eq!(rt;
            verdict(text.as_slice()),
            expected(*number, *place, layer),
            "{}",
            text.len()
        );
    }
    Ok(())
}

pub(crate) fn counts(script: &Script) -> Counts {
    (
        script.cells(),
        script.locals(),
        script.steps(),
        script.readings(),
        script.need(),
    )
}

pub(crate) fn counted(text: &[u8]) -> Result<Counts, Fault> {
    let mut script = Script::new();
    script.read(text)?;
    Ok(counts(&script))
}
