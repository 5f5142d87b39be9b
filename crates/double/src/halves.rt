// The words of a double buffer, each half with room for 64 cells, of which there are `count`. The project rules
// them word by word, so the halves lie in arrays.
#[derive(Clone, Copy, PartialEq, Eq, Debug)]
pub struct Halves {
    pub first: [i32; 64],
    pub second: [i32; 64],
    pub state: u32,
    pub count: u32,
}
