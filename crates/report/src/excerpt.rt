// A part of a line as a person sees it, and the blanks that put a caret under a place of it.
ghost use Rattle.std.specs.Prelude.{◌≡◌, map, IfOk, string_bytes};
ghost use Rattle.report.specs.Seen.{seen};

use std::alloc::{AllocError, Global};

// What is wanted of a part of a line: its bytes, or the blanks above which they stand. A parameter of a public
// function, by which `seen` goes, the definition that states its promise: so one function with it, and not two.
#[derive(Clone, Copy, PartialEq, Eq, Debug)]
pub enum How {
    Shown,
    Blank,
}

// A tab stays a tab in both, so that the caret stands under its place whatever a tab's width is.
fn seen_as(how: How, b: u8) -> u8
    ensures { result ≡ seen how b }
{
    match (how, b) {
        (_, b'\t') => b'\t',
        (How::Shown, b' '..=b'~') => b,
        (How::Shown, b'\r') | (How::Blank, _) => b' ',
        (How::Shown, _) => b'.',
    }
}

pub fn excerpt(heap: Global, bytes: &[u8], how: How) -> Result<String, AllocError>
    ensures { IfOk result (λ s. string_bytes s ≡ map (seen how) bytes.now) }
{
    bytes.iter().map(|b| seen_as(how, *b) as char).collect(heap)
}
