// What a cut region comes to, for every memory.
ghost use Rattle.std.specs.Prelude.{◌≡◌};
ghost use Rattle.memory.specs.Calls.{Mend};
ghost use Rattle.memory.specs.Regions.{AsIfNotBegun};

use crate::{Memory, Spent};

// Mends the memory. A region that was cut anywhere is then as if it had not begun: `undone` says it of every
// run of calls from the opening on.
pub fn undo_region<M: Memory>(memory: &mut M, units: u32) -> Spent
    ensures said { result ≡ (M.Memory.model.act (M.Memory.state memory.old) Mend units).answer }
    ensures left { M.Memory.state memory.new ≡ (M.Memory.model.act (M.Memory.state memory.old) Mend units).after }
    ensures undone { AsIfNotBegun M.Memory.model }
{
    memory.mend(units)
}
