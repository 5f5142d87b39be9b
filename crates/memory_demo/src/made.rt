// Memories made for a script with the numbers that its cells are declared with.
use double::buffer::Double;
use memory::Memory;
use memory::cells::FirstCells;
use reader::drive::Script;
use std::process::Abort;
use undo::log::Undo;

// A closed memory with just these cells, kept and current.
fn holds<M: Memory + Drop>(rt: &impl Abort, memory: M, cells: &[i32]) {
    assert!(rt; memory.count() as usize == cells.len() && !memory.is_open());
    for (i, cell) in (0..memory.count()).zip(cells) {
        assert_eq!(rt; memory.get(i).ok(), Some(*cell));
        assert_eq!(rt; memory.kept(i).ok(), Some(*cell));
    }
}

// Both memories of the script hold these cells.
fn made(rt: &impl Abort, text: &[u8], cells: &[i32]) {
    let mut script = Script::new();
    assert!(rt; script.read(text).is_ok());
    holds(rt, Undo::of_script(&script), cells);
    holds(rt, Double::of_script(&script), cells);
}

#[test]
fn no_cells(rt: HostRuntime) {
    made(&rt, b"main { }", &[]);
    made(&rt, b"var x; fresh y; main { x = 1; y = in 2; }", &[]);
}

#[test]
fn cells_in_their_order_with_their_signs(rt: HostRuntime) {
    made(
        &rt,
        b"cell a = 5; var x; cell b = -7; cell c = - 0; cell d = 8; main { a = - 3; x = 4; }",
        &[5, -7, 0, 8],
    );
}

#[test]
fn the_greatest_numbers(rt: HostRuntime) {
    made(
        &rt,
        b"cell a = 2147483647; cell b = -2147483647; main { }",
        &[2147483647, -2147483647],
    );
}
