// Every word after a cut, on worked examples: the lists of writes of docs/MEMORIES.md, word by word.
use crate::buffer::Double;
use memory::cells::FirstCells;
use memory::{Memory, Spent};
use std::array;
use std::test::Fail;

// Cell i is made with i + 1.
fn sixty_four() -> [i32; 64] {
    array::from_fn(|i| i as i32 + 1)
}

#[test]
fn an_open_of_64_cells_word_by_word(rt: HostRuntime) -> Result<(), Fail> {
    for units in 0..66u32 {
        let mut memory = Double::new(&sixty_four())?;
        let mut want = memory.words;
        for (cell, first) in want
            .second
            .iter_mut()
            .zip(&sixty_four())
            .take(units as usize)
        {
            *cell = *first;
        }
        if units == 65 {
            want.state = 2;
        }
        assert_eq!(rt; memory.open(units), Ok(Spent::of(65, units)));
        assert_eq!(rt; memory.words, want);
    }
    Ok(())
}

// A region on the first half and one on the second: a put of the same cell twice, cut and done, then close.
#[test]
fn two_regions_change_the_half_twice(rt: HostRuntime) -> Result<(), Fail> {
    let mut memory = Double::new(&[10, 20])?;
    assert_eq!(rt; memory.open(3), Ok(Spent::of(3, 3)));
    let mut want = memory.words;
    assert_eq!(rt; memory.put(0, 11, 1), Ok(Spent::of(1, 1)));
    want.second[0] = 11;
    assert_eq!(rt; memory.put(0, 12, 0), Ok(Spent::of(1, 0)));
    assert_eq!(rt; memory.words, want);
    assert_eq!(rt; memory.put(0, 12, 1), Ok(Spent::of(1, 1)));
    want.second[0] = 12;
    assert_eq!(rt; memory.close(0), Ok(Spent::of(1, 0)));
    assert_eq!(rt; memory.words, want);
    assert_eq!(rt; memory.close(1), Ok(Spent::of(1, 1)));
    want.state = 1;
    assert_eq!(rt; memory.words, want);
    assert_eq!(rt; memory.open(1), Ok(Spent::of(3, 1)));
    want.first[0] = 12;
    assert_eq!(rt; memory.words, want);
    assert_eq!(rt; memory.open(3), Ok(Spent::of(3, 3)));
    want.state = 3;
    assert_eq!(rt; memory.words, want);
    assert_eq!(rt; memory.put(1, 21, 1), Ok(Spent::of(1, 1)));
    want.first[1] = 21;
    assert_eq!(rt; memory.close(1), Ok(Spent::of(1, 1)));
    want.state = 0;
    assert_eq!(rt; memory.words, want);
    Ok(())
}

// A mend writes the state alone, and keeps the half in force, the second here.
#[test]
fn a_mend_is_cut_and_tried_again(rt: HostRuntime) -> Result<(), Fail> {
    let mut memory = Double::new(&[10])?;
    assert_eq!(rt; memory.open(2), Ok(Spent::of(2, 2)));
    assert_eq!(rt; memory.close(1), Ok(Spent::of(1, 1)));
    assert_eq!(rt; memory.open(2), Ok(Spent::of(2, 2)));
    assert_eq!(rt; memory.put(0, 11, 1), Ok(Spent::of(1, 1)));
    let mut want = memory.words;
    assert_eq!(rt; memory.mend(0), Spent::of(1, 0));
    assert_eq!(rt; memory.words, want);
    assert_eq!(rt; memory.mend(1), Spent::of(1, 1));
    want.state = 1;
    assert_eq!(rt; memory.words, want);
    assert_eq!(rt; memory.mend(9), Spent::of(0, 9));
    assert_eq!(rt; memory.words, want);
    Ok(())
}
