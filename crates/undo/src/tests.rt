// Every word after a cut, on worked examples: the lists of writes of docs/MEMORIES.md, word by word.
use crate::log::Undo;
use crate::words::Words;
use memory::cells::FirstCells;
use memory::{Memory, Spent};
use std::process::Abort;
use std::test::Fail;

const PLENTY: u32 = 1000;

// A log of the values, opened.
fn opened(rt: &impl Abort, values: &[i32]) -> Result<Undo, Fail> {
    let mut memory = Undo::new(values)?;
    assert_eq!(rt; memory.open(PLENTY), Ok(Spent::of(1, PLENTY)));
    Ok(memory)
}

// The words of an opened log of 10 and 20.
fn two_open() -> Words {
    let mut w = Words {
        cells: [0; 64],
        numbers: [0; 64],
        olds: [0; 64],
        state: 1,
        count: 2,
    };
    w.cells[0] = 10;
    w.cells[1] = 20;
    w
}

// The first put of cell 1 after so many of its words: the pair's number, its old value, the state, the cell.
fn put_after(units: u32) -> Words {
    let mut w = two_open();
    if units > 0 {
        w.numbers[0] = 1;
    }
    if units > 1 {
        w.olds[0] = 20;
    }
    if units > 2 {
        w.state = 2;
    }
    if units > 3 {
        w.cells[1] = 21;
    }
    w
}

#[test]
fn a_first_put_word_by_word(rt: HostRuntime) -> Result<(), Fail> {
    for units in 0..5 {
        let mut memory = opened(&rt, &[10, 20])?;
        assert_eq!(rt; memory.put(1, 21, units), Ok(Spent::of(4, units)));
        assert_eq!(rt; memory.words, put_after(units));
    }
    Ok(())
}

// Before the state word stands, the next put of the cell is a first one again, at the same pair; from then
// on it is one word, and the old value stays.
#[test]
fn a_second_put_after_each_cut(rt: HostRuntime) -> Result<(), Fail> {
    for units in 0..5 {
        let mut memory = opened(&rt, &[10, 20])?;
        assert_eq!(rt; memory.put(1, 21, units), Ok(Spent::of(4, units)));
        let words = if units < 3 { 4 } else { 1 };
        assert_eq!(rt; memory.put(1, 22, PLENTY), Ok(Spent::of(words, PLENTY)));
        let mut want = put_after(4);
        want.cells[1] = 22;
        assert_eq!(rt; memory.words, want);
    }
    Ok(())
}

// Cell 63 - j has pair j, so that no number is that of its pair.
fn all_put(rt: &impl Abort) -> Result<Undo, Fail> {
    let mut memory = opened(rt, &[5; 64])?;
    for j in 0..64u32 {
        assert_eq!(rt; memory.put(63 - j, 7, PLENTY), Ok(Spent::of(4, PLENTY)));
    }
    Ok(memory)
}

#[test]
fn a_mend_of_64_pairs_word_by_word(rt: HostRuntime) -> Result<(), Fail> {
    for units in 0..66u32 {
        let mut memory = all_put(&rt)?;
        let mut want = memory.words;
        for cell in want.cells.iter_mut().rev().take(units as usize) {
            *cell = 5;
        }
        if units == 65 {
            want.state = 0;
        }
        assert_eq!(rt; memory.mend(units), Spent::of(65, units));
        assert_eq!(rt; memory.words, want);
        assert!(rt; memory.mend(PLENTY).is_done());
        assert_eq!(rt; memory.words.cells[..], [5; 64][..]);
    }
    Ok(())
}

#[test]
fn close_and_open_write_the_state_alone(rt: HostRuntime) -> Result<(), Fail> {
    let mut memory = opened(&rt, &[10, 20])?;
    assert_eq!(rt; memory.put(1, 21, PLENTY), Ok(Spent::of(4, PLENTY)));
    let mut want = put_after(4);
    assert_eq!(rt; memory.close(0), Ok(Spent::of(1, 0)));
    assert_eq!(rt; memory.words, want);
    assert_eq!(rt; memory.close(1), Ok(Spent::of(1, 1)));
    want.state = 0;
    assert_eq!(rt; memory.words, want);
    assert_eq!(rt; memory.put(0, 11, 1), Ok(Spent::of(1, 1)));
    want.cells[0] = 11;
    assert_eq!(rt; memory.open(0), Ok(Spent::of(1, 0)));
    assert_eq!(rt; memory.words, want);
    assert_eq!(rt; memory.open(1), Ok(Spent::of(1, 1)));
    want.state = 1;
    assert_eq!(rt; memory.words, want);
    Ok(())
}
