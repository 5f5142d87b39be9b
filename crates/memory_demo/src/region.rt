// A region on any memory, cut where the units end, and mended.
use memory::region::undo_region;
use memory::{Memory, Spent};
use script::fault::Fault;
use std::fmt;

// How far a region came.
#[derive(Clone, Copy, PartialEq, Eq, Debug)]
pub enum End {
    Closed,
    Cut,
}

impl fmt::Display for End {
    fn fmt<W: fmt::Write>(&self, f: &mut fmt::Formatter<W>) -> fmt::Result {
        f.write_str(match self {
            End::Closed => "closed",
            End::Cut => "cut",
        })
    }
}

// The units left after a call; none where it was cut.
fn paid(left: u32, spent: Spent) -> Option<u32> {
    match spent {
        Spent::Done(words) => left.checked_sub(words),
        Spent::Cut(_) => None,
    }
}

// Open, three puts and close, as far as the units go.
fn run<M: Memory>(memory: &mut M, units: u32) -> Result<End, Fault> {
    let Some(left) = paid(units, memory.open(units)?) else {
        return Ok(End::Cut);
    };
    let Some(left) = paid(left, memory.put(0, 11, left)?) else {
        return Ok(End::Cut);
    };
    let Some(left) = paid(left, memory.put(1, 21, left)?) else {
        return Ok(End::Cut);
    };
    let Some(left) = paid(left, memory.put(0, 12, left)?) else {
        return Ok(End::Cut);
    };
    Ok(match memory.close(left)? {
        Spent::Done(_) => End::Closed,
        Spent::Cut(_) => End::Cut,
    })
}

// Runs the region with so many units, mends the memory, and reads its two kept cells.
pub(crate) fn after_cut<M: Memory>(memory: &mut M, units: u32) -> Result<(End, i32, i32), Fault> {
    let end = run(memory, units)?;
    undo_region(memory, 100);
    Ok((end, memory.kept(0)?, memory.kept(1)?))
}
