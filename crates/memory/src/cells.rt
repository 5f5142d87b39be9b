// The cells that a memory is made with.
ghost use Rattle.std.specs.Prelude.{◌≡◌, List, ℤ};
ghost use Rattle.std.specs.Result.{result_map_both};
ghost use Rattle.script.specs.Numbers.{declared};
ghost use Rattle.reader.specs.Holding.{syntax};
ghost use Rattle.memory.specs.Cells.{filled, made_of};
ghost use Rattle.memory.specs.Meaning.{Meaning, closed_with};

use crate::Memory;
// For a memory above that writes `of_script` itself: its crate need not name the reader.
pub use reader::drive::Script;
use script::fault::Fault;
use script::refusal::Refusal;

// The first values, and zeros up to the room of 64; more than 64 are refused by 29.
pub fn first_cells(values: &[i32]) -> Result<[i32; 64], Fault>
    ensures { result ≡ made_of values.now (filled values.now) }
{
    if values.len() > 64 {
        return Err(Refusal::TooManyValues.at(64));
    }
    let mut cells = [0; 64];
    cells[..values.len()].copy_from_slice(values);
    Ok(cells)
}

// A memory that is made with the first values of its cells.
pub trait FirstCells: Memory + Sized {
    // Its words, and what they mean.
    ghost Words: { Type 0 };

    ghost words: { Self → Words };

    ghost meaning: { Words → Meaning };

    // The words that it is made with.
    ghost first: { List ℤ → Words };

    // A closed memory of the first values; more than 64 are refused by 29.
    fn new(values: &[i32]) -> Result<Self, Fault>
        ensures words { result_map_both words (λ f. f) result ≡ made_of values.now (first values.now) }
        ensures means { meaning (first values.now) ≡ closed_with values.now };

    // A closed memory of the script's cells with the numbers that they are declared with. A script has
    // at most 64, so it is never refused.
    fn of_script(script: &Script) -> Self
        ensures words { words result ≡ first (declared (syntax script.now).decls) }
        ensures means { meaning (words result) ≡ closed_with (declared (syntax script.now).decls) }
    {
        Self::new(script.declared().as_slice()).unwrap()
    }

    // The meaning is that of the memory.
    ghost as_memory: { (m : Self) → Self.Memory.model.means (Self.Memory.state m) ≡ meaning (words m) };
}
