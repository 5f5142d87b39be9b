// The table of declared names.
ghost use Rattle.std.specs.Prelude.{◌≤◌, length};

use list::fixed::Fixed;
use script::row::Row;

// Names in a text, by their rows: at most 64 cells and 64 locals, as question 7 has it.
#[derive(Drop)]
pub(crate) struct Names<'a> {
    pub text: &'a [u8],
    pub list: Fixed<Row, 128>,
    ghost short: { length list.items ≤ 128 },
}
