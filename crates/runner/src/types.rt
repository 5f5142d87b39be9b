// The plain parts of a run.
ghost use Rattle.std.specs.Prelude.{◌≡◌, ◌*◌, ◌^◌, ◌<◌, ◌≤◌, length};

use place::types::{Oldest, Place};
use reader::drive::Script;

// A script, and which of its names are declared fresh.
#[derive(Clone, Copy)]
pub(crate) struct Job {
    pub(crate) script: Script,
    pub(crate) fresh: [bool; 128],
    ghost flags: { length fresh ≡ 128 },
}

// Where a step is taken: the script, the row, and the number of the power call.
#[derive(Clone, Copy)]
pub(crate) struct Here<'a> {
    pub(crate) job: &'a Job,
    pub(crate) row: usize,
    pub(crate) call: u32,
    ghost low: { row < 2 ^ 61 },
}

// What a failure in a region puts back: the place, the locals, and what stands behind each name.
#[derive(Clone, Copy)]
pub(crate) struct Point {
    pub(crate) place: Place,
    pub(crate) locals: [i32; 64],
    pub(crate) oldest: Oldest,
    ghost many: { length locals ≡ 64 },
}

// What a step came to: the words that it wrote beyond its unit, and its stale uses. That there are at most 2048
// stands in clauses and in no ghost field, here and below: clauses and specs/ write such records out.
#[derive(Clone, Copy)]
pub(crate) struct Step {
    pub(crate) words: u32,
    pub(crate) stale: usize,
}

// What an expression comes to: its value, the first power call among the readings behind it, its stale
// uses, and the row past it.
#[derive(Clone, Copy)]
pub(crate) struct Looked {
    pub(crate) value: i32,
    pub(crate) first: u32,
    pub(crate) stale: usize,
    pub(crate) end: usize,
}

// What a run counts: ticks, accepted power calls, failures, and stale uses. Each step takes a tick and has
// at most 2048 uses.
#[derive(Clone, Copy)]
pub(crate) struct Counts {
    pub(crate) tick: u32,
    pub(crate) calls: u32,
    pub(crate) failures: u32,
    pub(crate) stale: u64,
    ghost ticks: { tick ≤ 2000000000 },
    ghost numbered: { calls ≤ 1000000 },
    ghost failed: { failures ≤ calls },
    ghost counted: { stale ≤ 2048 * tick },
}

// The state of a run but for its job, host, memory and list, so that no call has to say that the job stays.
// `saved` is the point before the opening of the region that the run is in, and `listed` how long the list was
// there. `ended` is a flag: once it is set, the rest still tells where the run stood.
#[derive(Clone, Copy)]
pub(crate) struct State {
    pub(crate) at: Point,
    pub(crate) saved: Point,
    pub(crate) listed: usize,
    pub(crate) counts: Counts,
    pub(crate) ended: bool,
}
