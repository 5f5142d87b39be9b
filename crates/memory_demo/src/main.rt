// A program that shows what a power failure does to a region, on both memories: it makes two cells, 10 and
// 20, and runs a region that puts 11, 21 and 12 into them with 0 units, 1 unit and so on, until the region
// is closed. Each line has the units, how far the region came, and the kept cells after a mend.
#![tactic(auto)]

#[cfg(test)]
mod made;
mod region;
#[cfg(test)]
mod tests;

use double::buffer::Double;
use memory::Memory;
use memory::cells::FirstCells;
use region::after_cut;
use std::io;
use undo::log::Undo;

// One line: the region with so many units, and what is kept.
fn show<M: Memory + Drop>(rt: &HostRuntime, mut memory: M, units: u32) -> io::Result<()> {
    match after_cut(&mut memory, units) {
        Ok((end, first, second)) => { println!(rt; "{units} units: {end}, kept {first} {second}") }
        Err(f) => println!(rt; "{units} units: refused by {}", f.number),
    }
}

// A line for each number of units below `most`.
fn show_all<M: FirstCells + Drop>(rt: &HostRuntime, most: u32) -> io::Result<()> {
    for units in 0..most {
        if let Ok(memory) = M::new(&[10, 20]) {
            show(rt, memory, units)?;
        }
    }
    Ok(())
}

fn main(rt: HostRuntime) -> io::Result<()> {
    println!(rt; "undo log")?;
    show_all::<Undo>(&rt, 12)?;
    println!(rt; "double buffer")?;
    show_all::<Double>(&rt, 8)
}
