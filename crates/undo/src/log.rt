// The type, whose ghost field says what every log keeps to.
ghost use Rattle.undo.specs.Log.{Log64};

use crate::words::Words;

// The words of a log, in which every logged cell is a cell, and none is logged twice.
#[derive(Drop)]
pub struct Undo {
    pub(crate) words: Words,
    ghost fine: { Log64 words },
}
