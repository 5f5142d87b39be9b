// The reader: takes the bytes of a script, puts questions 1 to 12 in their order, each to the whole
// input before the next, and keeps what it read as a `Script`: its rows with the names numbered, and
// how many cells, locals, steps and readings it has. The first question that says no gives the fault.
#![tactic(auto)]

pub mod cells;
mod count;
pub mod drive;
pub mod firsts;
mod names;
pub mod read;
mod stages;
mod tally;
