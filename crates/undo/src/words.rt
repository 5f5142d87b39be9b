// The words of an undo log, with room for 64 cells and 64 pairs, of which there are `count` each. The project
// rules them word by word, so they lie in arrays, and a pair is two words.
#[derive(Clone, Copy, PartialEq, Eq, Debug)]
pub struct Words {
    pub cells: [i32; 64],
    pub numbers: [u32; 64],
    pub olds: [i32; 64],
    pub state: u32,
    pub count: u32,
}
