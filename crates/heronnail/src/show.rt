// A refusal as people read it: file, line, column, the number with its layer and place, a sentence, the
// source line and a caret under the place.
use report::excerpt::{How, excerpt};
use report::spot::locate;
use script::fault::Fault;
use script::refusal::Refusal;
use std::fmt;

// How much of a long line is shown before and after the place.
const BEFORE: usize = 60;

const AFTER: usize = 30;

// What is wrong in words, and whether it is past the text's end, where no token can be at fault.
#[derive(Clone, Copy)]
struct Said {
    fault: Fault,
    at_end: bool,
}

impl fmt::Display for Said {
    fn fmt<W: fmt::Write>(&self, f: &mut fmt::Formatter<W>) -> fmt::Result {
        match Refusal::try_from(self.fault.number) {
            Ok(Refusal::NotAScript) if self.at_end => f.write_str("the script ends too early"),
            Ok(refusal) => write!(f, "{refusal}"),
            Err(unknown) => write!(f, "{unknown}"),
        }
    }
}

pub(crate) fn print_refusal(
    rt: &HostRuntime,
    path: &str,
    text: &[u8],
    fault: Fault,
) -> anyhow::Result<()> {
    let heap = rt.alloc();
    let at = fault.place.min(text.len());
    let spot = locate(text, at);
    let column = at - spot.start + 1;
    let said = Said {
        fault,
        at_end: at >= text.len(),
    };
    eprintln!(rt;
        "{path}:{}:{column}: refused by {} ({}) at byte {}: {said}",
        spot.line, fault.number, fault.layer, fault.place
    )?;
    let from = spot.start.max(at.saturating_sub(BEFORE));
    let to = spot.end.min(at.saturating_add(AFTER));
    let (cut, pad) = if from > spot.start {
        ("...", "   ")
    } else {
        ("", "")
    };
    let more = if to < spot.end { "..." } else { "" };
    let line = excerpt(heap, &text[from..to], How::Shown)?;
    let blanks = excerpt(heap, &text[from..at], How::Blank)?;
    eprintln!(rt; "{cut}{line}{more}")?;
    eprintln!(rt; "{pad}{blanks}^")?;
    Ok(())
}
