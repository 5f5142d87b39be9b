// A read script: the rows of its tokens, its names numbered, and what was counted of it. Only reading
// makes one, so each has passed questions 1 to 12; the ghost fields say what later layers lean on. The rows are an
// array and a length, and no `Fixed`: a script is `Copy`, and a function that passes one by value and uses it again
// is not checked where a struct with an `impl Model` lies in it.
ghost use Rattle.std.specs.Prelude.{◌≡◌, ◌≤◌, true, false, map, length, take, is_some};
ghost use Rattle.script.specs.Nesting.{nesting};
ghost use Rattle.script.specs.Written.{token, rows as rows_of};
ghost use Rattle.script.specs.Decode.{decode};
ghost use Rattle.script.specs.Steps.{cells as cells_of, locals as locals_of, steps_of, readings_of};
ghost use Rattle.script.specs.Names.{all_numbered, all_repeat};
ghost use Rattle.script.specs.Numbers.{all_fit};

use script::row::Row;

#[derive(Clone, Copy)]
pub struct Script {
    pub(crate) rows: [Row; 2048],
    pub(crate) len: usize,
    pub(crate) cells: usize,
    pub(crate) locals: usize,
    pub(crate) steps: u64,
    pub(crate) readings: u64,
    ghost long: { length rows ≡ 2048 },
    ghost short: { len ≤ 2048 },
    // the rows are those of a script
    ghost whole: { take len rows ≡ rows_of (decode (take len rows)) },
    ghost nested: { is_some (nesting (map token (take len rows))) ≡ false },
    ghost fits: { all_numbered (take len rows) ≡ true },
    ghost repeats: { all_repeat (take len rows) ≡ true },
    ghost small: { all_fit (take len rows) ≡ true },
    // and the numbers are its
    ghost cells_are: { cells ≡ cells_of (decode (take len rows)).decls },
    ghost locals_are: { locals ≡ locals_of (decode (take len rows)).decls },
    ghost steps_are: { steps ≡ steps_of (decode (take len rows)) },
    ghost readings_are: { readings ≡ readings_of (decode (take len rows)) },
    ghost few_cells: { cells ≤ 64 },
    ghost few_locals: { locals ≤ 64 },
    ghost few_steps: { steps ≤ 1000000 },
    ghost few_readings: { readings ≤ 4096 },
}
