// The log as a memory: which words each call writes, in order, as far as the units go.
ghost use Rattle.std.specs.Prelude.{◌≡◌, ℕ, ◌==◌, ◌<◌, ◌≤◌, length, min, pos, position, slice_index, slice_index_or, take, refl};
ghost use Rattle.memory.specs.Plan.{applied};
ghost use Rattle.memory.specs.Spent.{spent};
ghost use Rattle.undo.specs.Log.{Log64, meaning_of, pairs, among, undone, fresh, first_word, mend_word, write, Cell, undo_model, undo_plan};
ghost use Rattle.undo.specs.Made.{first_words};
ghost use Rattle.memory.proofs.Plans.{lawful_of};
ghost use Rattle.undo.specs.Works.{works};
ghost use Rattle.undo.specs.Fit.{log_of};
ghost use Rattle.undo.specs.declared.words.Words.{Words as Log};

use crate::log::Undo;
use crate::words::Words;
use memory::cells::{FirstCells, first_cells};
use memory::refusals::{check_cell, check_closed, check_open};
use memory::{Memory, Spent};
use script::fault::Fault;

impl FirstCells for Undo {
    ghost Words = { Log };

    ghost words = { λ m. m.words };

    ghost meaning = { meaning_of };

    ghost first = { first_words };

    ghost as_memory = { λ m. refl };

    fn new(values: &[i32]) -> Result<Undo, Fault> {
        let cells = first_cells(values)?;
        Ok(Undo {
            words: Words {
                cells,
                numbers: [0; 64],
                olds: [0; 64],
                state: 0,
                count: values.len() as u32,
            },
        })
    }
}

impl Undo {
    // The numbers of the cells that have a pair in force.
    fn numbers(&self) -> &[u32]
        ensures { result.now ≡ take (pairs self.now.words) self.now.words.numbers }
    {
        &self.words.numbers[..self.words.pairs()]
    }

    // Whether the cell has a pair.
    fn is_logged(&self, i: u32) -> bool
        ensures { result ≡ among (pairs self.now.words) self.now.words.numbers i }
    {
        self.numbers().contains(&i)
    }

    // The cell's pair, of which there is at most one.
    fn pair_of(&self, i: u32) -> Option<usize>
        ensures { result ≡ position (λ n. n == i) (take (pairs self.now.words) self.now.words.numbers) }
    {
        self.numbers().iter().position(|number| *number == i)
    }

    // Whether a put of the cell is its first in a region.
    fn is_fresh(&self, i: u32) -> bool
        ensures { result ≡ fresh self.now.words i }
    {
        self.is_open() && !self.is_logged(i)
    }

    // The kept value of a cell: the old value of its pair, or what the cell holds where it has none.
    fn old_value(&self, i: u32) -> i32
        requires { i < self.now.words.count }
        ensures { result ≡ slice_index_or (undone (pairs self.now.words) self.now.words.numbers self.now.words.olds self.now.words.cells) i (pos 0) }
    {
        self.pair_of(i)
            .map_or(self.words.cells[i as usize], |k| self.words.olds[k])
    }
}

// Writes old values back into their cells.
fn write_back(cells: &mut [i32; 64], numbers: &[u32], olds: &[i32])
    requires cells { (j : ℕ) → j < length numbers.now → slice_index numbers.now j < 64 }
    requires paired { length olds.now ≡ length numbers.now }
    ensures { cells.new ≡ undone (length numbers.now) numbers.now olds.now cells.old }
{
    for (number, old) in numbers.iter().zip(olds) {
        cells[*number as usize] = *old;
    }
}

impl Words {
    // How many pairs are in force.
    fn pairs(&self) -> usize
        ensures { result ≡ pairs self.now }
    {
        self.state.saturating_sub(1) as usize
    }

    // Writes the cell's word. Cell, value and units come as `Memory::put` has them.
    fn put(&mut self, i: u32, x: i32, units: u32) -> Spent
        requires { i < 64 }
        ensures said { result ≡ spent 1 units }
        ensures left { self.new ≡ applied write (λ _. Cell i x) self.old (min units 1) }
    {
        if units > 0 {
            self.cells[i as usize] = x;
        }
        Spent::of(1, units)
    }

    // Writes number, old value, state and cell.
    fn put_first(&mut self, i: u32, x: i32, units: u32) -> Spent
        requires { (i < 64) × ((0 < self.old.state) × (self.old.state ≤ 64)) }
        ensures said { result ≡ spent 4 units }
        ensures left { self.new ≡ applied write (first_word self.old i x) self.old (min units 4) }
    {
        let answer = Spent::of(4, units);
        let k = self.pairs();
        // A call is cut at each of its words, as the project rules.
        if units == 0 {
            return answer;
        }
        self.numbers[k] = i;
        if units == 1 {
            return answer;
        }
        let old = self.cells[i as usize];
        self.olds[k] = old;
        if units == 2 {
            return answer;
        }
        self.state += 1;
        if units == 3 {
            return answer;
        }
        self.cells[i as usize] = x;
        answer
    }

    // Writes the old values back, as far as the units go.
    fn write_back(&mut self, units: u32)
        requires { Log64 self.old }
        ensures { self.new ≡ applied write (mend_word self.old) self.old (min units (pairs self.old)) }
    {
        let n = self.pairs().min(units as usize);
        write_back(&mut self.cells, &self.numbers[..n], &self.olds[..n]);
    }
}

impl Memory for Undo {
    ghost model = { undo_model };

    ghost state = { λ m. m.words };

    ghost lawful = { lawful_of undo_plan works };

    ghost stands = { λ m. log_of m };

    fn count(&self) -> u32 {
        self.words.count
    }

    fn is_open(&self) -> bool {
        self.words.state > 0
    }

    fn get(&self, i: u32) -> Result<i32, Fault> {
        check_cell(i, self.words.count)?;
        Ok(self.words.cells[i as usize])
    }

    fn kept(&self, i: u32) -> Result<i32, Fault> {
        check_cell(i, self.words.count)?;
        Ok(self.old_value(i))
    }

    fn put(&mut self, i: u32, x: i32, units: u32) -> Result<Spent, Fault> {
        check_cell(i, self.words.count)?;
        if self.is_fresh(i) {
            Ok(self.words.put_first(i, x, units))
        } else {
            Ok(self.words.put(i, x, units))
        }
    }

    fn open(&mut self, units: u32) -> Result<Spent, Fault> {
        check_closed(self.is_open())?;
        if units > 0 {
            self.words.state = 1;
        }
        Ok(Spent::of(1, units))
    }

    fn close(&mut self, units: u32) -> Result<Spent, Fault> {
        check_open(self.is_open())?;
        if units > 0 {
            self.words.state = 0;
        }
        Ok(Spent::of(1, units))
    }

    fn mend(&mut self, units: u32) -> Spent {
        let answer = Spent::of(self.words.state, units);
        if !self.is_open() {
            return answer;
        }
        self.words.write_back(units);
        if answer.is_done() {
            self.words.state = 0;
        }
        answer
    }
}
