// What the check keeps while it walks the rows.
ghost use Rattle.std.specs.Prelude.{◌≡◌, ◌≤◌, length};

use list::fixed::Fixed;
use script::standing::Standing;

// One standing for each name, at the name's number.
#[derive(Clone, Copy)]
pub struct Standings {
    pub of: [Standing; 128],
    ghost long: { length of ≡ 128 },
}

// What is kept of where a brace opened: the table there, the condition's standing, the row behind the
// brace, the number of the next repeat, and whether it stood in a region.
#[derive(Clone, Copy, Default)]
pub struct Frame {
    pub table: Standings,
    pub level: Standing,
    pub from: usize,
    pub number: usize,
    pub inside: bool,
}

// The walk of one pass, and the repeats' entries, which last from pass to pass.
#[derive(Drop)]
pub struct Check {
    pub table: Standings,
    pub fresh: [bool; 128],
    pub target: Option<usize>,
    pub level: Standing,
    pub inside: bool,
    pub frames: Fixed<Frame, 16>,
    pub entries: [Standings; 512],
    pub number: usize,
    pub rose: bool,
    pub first: Option<usize>,
    ghost counted: { number ≤ 512 },
}
