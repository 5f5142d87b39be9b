// Every call of both memories, cut at every word, with 0, 1, 2 and 64 cells.
use double::buffer::Double;
use memory::cells::FirstCells;
use memory::{Memory, Spent};
use script::fault::{Fault, Layer};
use std::array;
use std::process::Abort;
use std::test::Fail;
use undo::log::Undo;

const PLENTY: u32 = 1000;

// The calls, each at a memory that takes it: Again is a put of a cell that was put before. An enum and not closures,
// since a call also says how the memory is brought to it and what is left after it.
#[derive(Clone, Copy, PartialEq, Eq)]
enum Cut {
    Open,
    ShutPut,
    First,
    Again,
    Close,
    Mend,
}

// Cell i is made with i + 1.
fn first_value(i: u32) -> i32 {
    if i < 64 { i as i32 + 1 } else { 0 }
}

// A memory of the first n of these cells.
fn made<M: FirstCells>(n: usize) -> Result<M, Fail> {
    let all: [i32; 64] = array::from_fn(|i| first_value(i as u32));
    Ok(M::new(all.get(..n).unwrap_or(&all))?)
}

// The loops over cells go by number, since a `Memory` is asked for a cell by its number.

// The kept cells are the first values, but for so many from cell 0 on that were put.
fn kept_as_made<M: Memory>(rt: &impl Abort, memory: &M, puts: u32) -> Result<(), Fail> {
    for i in 0..memory.count() {
        let want = if i < puts { -7 } else { first_value(i) };
        assert_eq!(rt; memory.kept(i)?, want);
    }
    Ok(())
}

// The current cells are the kept ones.
fn level<M: Memory>(rt: &impl Abort, memory: &M) -> Result<(), Fail> {
    for i in 0..memory.count() {
        assert_eq!(rt; memory.get(i)?, memory.kept(i)?);
    }
    Ok(())
}

// Brings the memory to where the call is made: open, and with every cell put.
fn prepare<M: Memory>(memory: &mut M, cut: Cut) -> Result<(), Fail> {
    if cut == Cut::Open || cut == Cut::ShutPut {
        return Ok(());
    }
    memory.open(PLENTY)?;
    if cut == Cut::First {
        return Ok(());
    }
    for i in 0..memory.count() {
        memory.put(i, -7, PLENTY)?;
    }
    Ok(())
}

// Makes the call with so many units.
fn called<M: Memory>(memory: &mut M, cut: Cut, units: u32) -> Result<Spent, Fault> {
    match cut {
        Cut::Open => memory.open(units),
        Cut::Close => memory.close(units),
        Cut::Mend => Ok(memory.mend(units)),
        Cut::ShutPut | Cut::First | Cut::Again => memory.put(0, -7, units),
    }
}

// Cuts the call of so many words after so many units, and mends.
fn cut_at<M: Memory + Drop>(
    rt: &impl Abort,
    mut memory: M,
    cut: Cut,
    words: u32,
    units: u32,
) -> Result<(), Fail> {
    prepare(&mut memory, cut)?;
    let was_open = memory.is_open();
    let spent = called(&mut memory, cut, units)?;
    assert_eq!(rt; spent, Spent::of(words, units));
    let puts = match (cut, spent) {
        (Cut::Close, Spent::Done(_)) => memory.count(),
        (Cut::ShutPut, Spent::Done(_)) => 1,
        _ => 0,
    };
    if !spent.is_done() {
        assert_eq!(rt; memory.is_open(), was_open);
    }
    kept_as_made(rt, &memory, puts)?;
    assert!(rt; memory.mend(PLENTY).is_done() && !memory.is_open());
    kept_as_made(rt, &memory, puts)?;
    level(rt, &memory)
}

// One call of a memory of n cells, cut at each of its words.
fn cuts<M: FirstCells + Drop>(rt: &impl Abort, n: u32, cut: Cut, words: u32) -> Result<(), Fail> {
    for units in 0..=words {
        cut_at(rt, made::<M>(n as usize)?, cut, words, units)?;
    }
    Ok(())
}

#[test]
fn the_undo_log_is_cut_at_every_word(rt: HostRuntime) -> Result<(), Fail> {
    for n in [0, 1, 2, 64] {
        cuts::<Undo>(&rt, n, Cut::Open, 1)?;
        cuts::<Undo>(&rt, n, Cut::Close, 1)?;
        cuts::<Undo>(&rt, n, Cut::Mend, 1 + n)?;
        if n > 0 {
            cuts::<Undo>(&rt, n, Cut::ShutPut, 1)?;
            cuts::<Undo>(&rt, n, Cut::First, 4)?;
            cuts::<Undo>(&rt, n, Cut::Again, 1)?;
        }
    }
    Ok(())
}

#[test]
fn the_double_buffer_is_cut_at_every_word(rt: HostRuntime) -> Result<(), Fail> {
    for n in [0, 1, 2, 64] {
        cuts::<Double>(&rt, n, Cut::Open, n + 1)?;
        cuts::<Double>(&rt, n, Cut::Close, 1)?;
        cuts::<Double>(&rt, n, Cut::Mend, 1)?;
        if n > 0 {
            cuts::<Double>(&rt, n, Cut::ShutPut, 1)?;
            cuts::<Double>(&rt, n, Cut::First, 1)?;
            cuts::<Double>(&rt, n, Cut::Again, 1)?;
        }
    }
    Ok(())
}

// A put that was cut after its state word has its pair: the next put of that cell is one word.
#[test]
fn a_pair_stands_after_a_cut(rt: HostRuntime) -> Result<(), Fail> {
    let mut memory = made::<Undo>(2)?;
    assert!(rt; memory.open(PLENTY).is_ok());
    assert_eq!(rt; called(&mut memory, Cut::First, 3)?, Spent::of(4, 3));
    assert_eq!(rt;
        called(&mut memory, Cut::Again, PLENTY)?,
        Spent::of(1, PLENTY)
    );
    assert_eq!(rt; memory.mend(PLENTY), Spent::of(2, PLENTY));
    kept_as_made(&rt, &memory, 0)
}

// A cell put twice in a region, the second time cut: the mended cells are those before the region. Then once
// more, with a third put that is done, and closed.
fn put_twice<M: Memory + Drop>(rt: &impl Abort, mut memory: M) -> Result<(), Fail> {
    for close in [false, true] {
        assert!(rt; memory.open(PLENTY).is_ok());
        assert!(rt; memory.put(0, 5, PLENTY).is_ok());
        assert!(rt; memory.put(0, 6, PLENTY).is_ok());
        assert_eq!(rt; called(&mut memory, Cut::Again, 0)?, Spent::of(1, 0));
        kept_as_made(rt, &memory, 0)?;
        if close {
            assert_eq!(rt; called(&mut memory, Cut::Again, 1)?, Spent::of(1, 1));
            assert!(rt; memory.close(1).is_ok());
        } else {
            assert!(rt; memory.mend(PLENTY).is_done());
        }
        kept_as_made(rt, &memory, u32::from(close))?;
        level(rt, &memory)?;
    }
    Ok(())
}

#[test]
fn a_cell_is_put_twice_before_and_after_a_cut(rt: HostRuntime) -> Result<(), Fail> {
    put_twice(&rt, made::<Undo>(2)?)?;
    put_twice(&rt, made::<Double>(2)?)
}

// Refused by the number, which is what is promised, at place 0, and by the layer of memories.
fn is_refused<T: Drop>(answer: Result<T, Fault>, number: u8) -> bool {
    let fault = Fault {
        number,
        place: 0,
        layer: Layer::Memory,
    };
    answer.err() == Some(fault)
}

// Each refusal of a memory, which it leaves as it was.
fn refusals<M: Memory + Drop>(rt: &impl Abort, mut memory: M) -> Result<(), Fail> {
    let past = memory.count();
    assert!(rt; is_refused(memory.get(past), 26) && is_refused(memory.kept(past), 26));
    assert!(rt; is_refused(memory.put(past, 1, 9), 26) && is_refused(memory.close(9), 28));
    assert!(rt; !memory.is_open() && memory.mend(9) == Spent::of(0, 9));
    assert!(rt; memory.open(9).is_ok());
    assert!(rt; is_refused(memory.open(9), 27) && is_refused(memory.put(past, 1, 9), 26));
    assert!(rt; memory.is_open());
    kept_as_made(rt, &memory, 0)?;
    level(rt, &memory)
}

#[test]
fn refusals_have_their_numbers(rt: HostRuntime) -> Result<(), Fail> {
    let mut memory = made::<Double>(2)?;
    assert!(rt; is_refused(memory.get(2), 26));
    assert!(rt; is_refused(memory.kept(2), 26));
    assert!(rt; is_refused(memory.put(2, 1, 9), 26));
    assert!(rt; is_refused(memory.close(9), 28));
    assert!(rt; memory.open(9).is_ok());
    assert!(rt; is_refused(memory.open(9), 27));
    // by the number, as above
    assert_eq!(rt; Undo::new(&[0; 65]).err(), Some(Fault::new(29, 64)));
    Ok(())
}

#[test]
fn every_refusal_has_its_number(rt: HostRuntime) -> Result<(), Fail> {
    for n in [0, 2] {
        refusals(&rt, made::<Undo>(n)?)?;
        refusals(&rt, made::<Double>(n)?)?;
    }
    // by the number, as above
    assert_eq!(rt; Undo::new(&[0; 65]).err(), Some(Fault::new(29, 64)));
    assert_eq!(rt; Double::new(&[0; 65]).err(), Some(Fault::new(29, 64)));
    Ok(())
}
