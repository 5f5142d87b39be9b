// The line and column of a place.
ghost use Rattle.std.specs.Prelude.{◌≡◌, ◌≤◌, min, count_by, length, reverse, take_while};
ghost use Rattle.report.specs.Lines.{is_break, no_break, line_of, start_of, end_of};

// A place's line, counted from 1, and where that line begins and ends.
#[derive(Clone, Copy, PartialEq, Eq, Debug)]
pub struct Spot {
    pub line: usize,
    pub start: usize,
    pub end: usize,
}

// How many lines end in the bytes.
fn breaks(bytes: &[u8]) -> usize
    ensures value { result ≡ count_by is_break bytes.now }
    ensures within { result ≤ length bytes.now }
{
    bytes.iter().filter(|b| **b == b'\n').count()
}

// How many bytes there are behind the last line's end.
fn since_break(bytes: &[u8]) -> usize
    ensures { result ≡ length (take_while no_break (reverse bytes.now)) }
{
    bytes.iter().rev().take_while(|b| **b != b'\n').count()
}

// How many bytes there are before the first line's end.
fn until_break(bytes: &[u8]) -> usize
    ensures { result ≡ length (take_while no_break bytes.now) }
{
    bytes.iter().take_while(|b| **b != b'\n').count()
}

// The line of a place of the text; a place past the text's end is taken for the end.
pub fn locate(text: &[u8], place: usize) -> Spot
    ensures line { result.line ≡ line_of text.now (min place (length text.now)) }
    ensures start { result.start ≡ start_of text.now (min place (length text.now)) }
    ensures end { result.end ≡ end_of text.now (min place (length text.now)) }
    ensures within { (result.start ≤ min place (length text.now)) × (min place (length text.now) ≤ result.end) × (result.end ≤ length text.now) }
{
    let at = place.min(text.len());
    let (before, behind) = text.split_at(at);
    let start = at - since_break(before);
    // No line ends behind where this one begins, so that each byte is looked at once.
    Spot {
        line: breaks(&before[..start]) + 1,
        start,
        end: at + until_break(behind),
    }
}
