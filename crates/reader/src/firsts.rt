// The numbers that the cells of a script are declared with, one for each cell, in the order of their
// declarations. An array and a length, and no `Fixed`, for the reason that `Script` gives.
ghost use Rattle.std.specs.Prelude.{◌≡◌, ◌≤◌, length};

#[derive(Clone, Copy)]
pub struct Declared {
    pub(crate) values: [i32; 64],
    pub(crate) len: usize,
    ghost few: { len ≤ 64 },
    ghost long: { length values ≡ 64 },
}
