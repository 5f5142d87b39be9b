// What every memory is. A memory means n kept cells, n current cells, and open or not; it answers n and
// whether it is open, reads a current or a kept cell, and has four calls that write: put, open, close and
// mend. These are told the units left, spend one for each word, and can be cut. The trait `Memory` asks an
// implementation for a model, that is, its own states with what each means and what each call does to it,
// to the word; `lawful` says that the model obeys the rules, and each call's contract says by equality
// that the code does what the model does. A memory that writes words one by one gets its model and its laws
// from a plan of its words, which specs/Plan.antt shares among all of them. What a run proves of a `Memory`
// holds of each one, and is exact for each one whose model is.
#![tactic(auto)]

ghost use Rattle.std.specs.Prelude.{◌≡◌, length};
ghost use Rattle.memory.specs.Calls.{Put, Open, Close, Mend};
ghost use Rattle.memory.specs.Model.{Model, Lawful, answer, after, cell_of};
ghost use Rattle.memory.specs.Spent.{is_done, written, spent};

use script::fault::Fault;

pub mod cells;
pub mod refusals;
pub mod region;

// What a call that writes answers: it is done or was cut, after so many words.
#[derive(Clone, Copy, PartialEq, Eq, Debug)]
pub enum Spent {
    Done(u32),
    Cut(u32),
}

impl Spent {
    // The answer of a call of so many words: done where there is a unit for each, else cut after the
    // units' last.
    pub fn of(words: u32, units: u32) -> Spent
        ensures { result ≡ spent words units }
    {
        if words <= units {
            Spent::Done(words)
        } else {
            Spent::Cut(units)
        }
    }

    pub fn is_done(self) -> bool
        ensures { result ≡ is_done self }
    {
        matches!(self, Spent::Done(_))
    }

    // How many words the call wrote.
    pub fn words(self) -> u32
        ensures { result ≡ written self }
    {
        match self {
            Spent::Done(words) | Spent::Cut(words) => words,
        }
    }
}

pub trait Memory {
    ghost model: { Model };

    ghost state: { Self → model.State };

    // How many cells there are.
    fn count(&self) -> u32
        ensures { result ≡ length (model.means (state self.now)).kept };

    fn is_open(&self) -> bool
        ensures { result ≡ (model.means (state self.now)).is_open };

    // A current cell; refused by 26 where there is none.
    fn get(&self, i: u32) -> Result<i32, Fault>
        ensures { result ≡ cell_of (model.means (state self.now)).current i };

    // A kept cell; refused by 26 where there is none.
    fn kept(&self, i: u32) -> Result<i32, Fault>
        ensures { result ≡ cell_of (model.means (state self.now)).kept i };

    // Changes a current cell; refused by 26 where there is none.
    fn put(&mut self, i: u32, x: i32, units: u32) -> Result<Spent, Fault>
        ensures said { result ≡ answer model (state self.old) (Put i x) units }
        ensures left { state self.new ≡ after model (state self.old) (Put i x) units };

    // Opens the memory; refused by 27 where it is open.
    fn open(&mut self, units: u32) -> Result<Spent, Fault>
        ensures said { result ≡ answer model (state self.old) Open units }
        ensures left { state self.new ≡ after model (state self.old) Open units };

    // Makes the current cells kept, and ends open; refused by 28 where the memory is closed.
    fn close(&mut self, units: u32) -> Result<Spent, Fault>
        ensures said { result ≡ answer model (state self.old) Close units }
        ensures left { state self.new ≡ after model (state self.old) Close units };

    // Makes the kept cells current, and ends open.
    fn mend(&mut self, units: u32) -> Spent
        ensures said { result ≡ (model.act (state self.old) Mend units).answer }
        ensures left { state self.new ≡ (model.act (state self.old) Mend units).after };

    ghost lawful: { Lawful model };

    ghost stands: { (m : Self) → model.fine (state m) };
}
