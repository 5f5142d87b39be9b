// The double buffer as a memory: which words each call writes, in order, as far as the units go.
ghost use Rattle.std.specs.Prelude.{◌≡◌, ◌<◌, ◌≤◌, ◌++◌, drop, not, refl, slice_set, take};
ghost use Rattle.double.specs.Buffer.{meaning_of, side, live, half, with_half, double_model, double_plan};
ghost use Rattle.double.specs.Made.{first_halves};
ghost use Rattle.memory.proofs.Plans.{lawful_of};
ghost use Rattle.double.specs.Works.{works};
ghost use Rattle.double.specs.Fit.{two_of};
ghost use Rattle.double.specs.declared.halves.Halves.{Halves as Buffer};

use crate::buffer::Double;
use crate::halves::Halves;
use memory::cells::{FirstCells, first_cells};
use memory::refusals::{check_cell, check_closed, check_open};
use memory::{Memory, Spent};
use script::fault::Fault;

impl FirstCells for Double {
    ghost Words = { Buffer };

    ghost words = { λ m. m.words };

    ghost meaning = { meaning_of };

    ghost first = { first_halves };

    ghost as_memory = { λ m. refl };

    fn new(values: &[i32]) -> Result<Double, Fault> {
        let first = first_cells(values)?;
        Ok(Double {
            words: Halves {
                first,
                second: [0; 64],
                state: 0,
                count: values.len() as u32,
            },
        })
    }
}

impl Double {
    // Whether the second half is in force.
    fn in_force(&self) -> bool
        ensures { result ≡ side self.now.words }
    {
        self.words.state % 2 == 1
    }

    // Whether get and put speak of the second half.
    fn live(&self) -> bool
        ensures { result ≡ live self.now.words }
    {
        self.is_open() != self.in_force()
    }
}

// Copies the first n cells.
fn copy_front(from: &[i32; 64], to: &mut [i32; 64], n: usize)
    requires { n ≤ 64 }
    ensures { to.new ≡ take n from.now ++ drop n to.old }
{
    to[..n].copy_from_slice(&from[..n]);
}

// A half is named as bit 0 of the state word does it: true is the second.
impl Halves {
    fn half(&self, second: bool) -> &[i32; 64]
        ensures { result.now ≡ half self.now second }
    {
        if second { &self.second } else { &self.first }
    }

    // Writes a cell of a half. Here and in `copy` each half has its own branch: of a function that returns an
    // array field as `&mut` it is not proved what the caller's write leaves (tried by an `if`, by an early
    // return, and by a function for each half).
    fn write(&mut self, second: bool, i: u32, x: i32)
        requires { i < 64 }
        ensures { self.new ≡ with_half self.old second (slice_set (half self.old second) i x) }
    {
        if second {
            self.second[i as usize] = x;
        } else {
            self.first[i as usize] = x;
        }
    }

    // Copies the first n cells of a half to the other.
    fn copy(&mut self, second: bool, n: usize)
        requires { n ≤ 64 }
        ensures { self.new ≡ with_half self.old (not second) (take n (half self.old second) ++ drop n (half self.old (not second))) }
    {
        if second {
            copy_front(&self.second, &mut self.first, n);
        } else {
            copy_front(&self.first, &mut self.second, n);
        }
    }
}

impl Memory for Double {
    ghost model = { double_model };

    ghost state = { λ m. m.words };

    ghost lawful = { lawful_of double_plan works };

    ghost stands = { λ m. two_of m };

    fn count(&self) -> u32 {
        self.words.count
    }

    fn is_open(&self) -> bool {
        self.words.state >= 2
    }

    fn get(&self, i: u32) -> Result<i32, Fault> {
        check_cell(i, self.words.count)?;
        Ok(self.words.half(self.live())[i as usize])
    }

    fn kept(&self, i: u32) -> Result<i32, Fault> {
        check_cell(i, self.words.count)?;
        Ok(self.words.half(self.in_force())[i as usize])
    }

    fn put(&mut self, i: u32, x: i32, units: u32) -> Result<Spent, Fault> {
        check_cell(i, self.words.count)?;
        if units > 0 {
            let live = self.live();
            self.words.write(live, i, x);
        }
        Ok(Spent::of(1, units))
    }

    fn open(&mut self, units: u32) -> Result<Spent, Fault> {
        check_closed(self.is_open())?;
        let all = self.words.count;
        let n = all.min(units) as usize;
        let second = self.in_force();
        self.words.copy(second, n);
        if units > all {
            self.words.state += 2;
        }
        Ok(Spent::of(all + 1, units))
    }

    fn close(&mut self, units: u32) -> Result<Spent, Fault> {
        check_open(self.is_open())?;
        if units > 0 {
            self.words.state = 3 - self.words.state;
        }
        Ok(Spent::of(1, units))
    }

    fn mend(&mut self, units: u32) -> Spent {
        if !self.is_open() {
            return Spent::of(0, units);
        }
        if units > 0 {
            self.words.state -= 2;
        }
        Spent::of(1, units)
    }
}
