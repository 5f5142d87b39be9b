// Question 12: how many steps and readings a script has at most, by one walk of its rows.
ghost use Rattle.std.specs.Prelude.{◌≡◌, []};
ghost use Rattle.reader.specs.Count.{add as add_of, multiply as multiply_of, larger as larger_of, ended as ended_of, flipped as flipped_of, does, view, enter as enter_of, leave as leave_of, flip as flip_of, more as more_of, count as count_of, acc, none};

use crate::count::{Capped, Outer, Tally, Total};
use list::fixed::Fixed;
use script::row::{Role, Row};
use std::ops::Add;

impl Total {
    fn new(steps: u64, readings: u64) -> Total
        ensures steps { result.steps ≡ steps }
        ensures readings { result.readings ≡ readings }
    {
        Total {
            steps: Capped::new(steps),
            readings: Capped::new(readings),
        }
    }

    // So many turns of a body, each of which begins with a step.
    fn multiply(self, n: u32) -> Total
        ensures { result ≡ multiply_of n self }
    {
        Total {
            steps: (Capped::new(1) + self.steps) * n,
            readings: self.readings * n,
        }
    }

    fn larger(self, other: Total) -> Total
        ensures { result ≡ larger_of self other }
    {
        Total {
            steps: self.steps.max(other.steps),
            readings: self.readings.max(other.readings),
        }
    }
}

impl Add for Total {
    type Output = Total;

    ghost add_gives = { λ a b sum. sum ≡ add_of a b };

    fn add(self, other: Total) -> Total {
        Total {
            steps: self.steps + other.steps,
            readings: self.readings + other.readings,
        }
    }
}

// What lies in the unused room of the stack; a derived default wants a variant with no fields.
impl Default for Outer {
    fn default() -> Outer {
        Outer::First(Total::default())
    }
}

impl Outer {
    // The count outside a block with that of the block, which ends.
    fn ended(self, here: Total) -> Total
        ensures { result ≡ ended_of self here }
    {
        match self {
            Outer::Repeat(n, outer) => outer + here.multiply(n),
            Outer::First(outer) => outer + here,
            Outer::Second(first, outer) => outer + first.larger(here),
        }
    }

    fn flipped(self, here: Total) -> Outer
        ensures { result ≡ flipped_of self here }
    {
        match self {
            Outer::First(outer) => Outer::Second(here, outer),
            other => other,
        }
    }
}

impl Tally {
    fn none() -> Tally
        ensures { view result ≡ acc none 0 [] }
    {
        Tally {
            here: Total::default(),
            times: 0,
            outer: Fixed::new(),
        }
    }

    fn more(&mut self, steps: u64, readings: u64)
        ensures { view self.new ≡ more_of steps readings (view self.old) }
    {
        self.here = self.here + Total::new(steps, readings);
    }

    // A block begins. No script has more than 16 open, so what would not fit never comes.
    fn enter(&mut self, outer: Outer)
        ensures { view self.new ≡ enter_of outer (view self.old) }
    {
        if self.outer.push(outer) {
            self.here = Total::default();
            self.times = 0;
        }
    }

    fn leave(&mut self)
        ensures { view self.new ≡ leave_of (view self.old).outer (view self.old) }
    {
        if let Some(outer) = self.outer.pop() {
            self.here = outer.ended(self.here);
            self.times = 0;
        }
    }

    fn flip(&mut self)
        ensures { view self.new ≡ flip_of (view self.old).outer (view self.old) }
    {
        if let Some(outer) = self.outer.pop() {
            self.outer.push(outer.flipped(self.here));
            self.here = Total::default();
            self.times = 0;
        }
    }

    // One row.
    fn step(&mut self, row: &Row)
        ensures { view self.new ≡ does row.now.role row.now.value (view self.old) }
    {
        match row.role {
            Role::Becomes | Role::IfWord | Role::TogetherWord => self.more(1, 0),
            Role::InWord => self.more(0, 1),
            Role::AtomicWord => self.more(2, 0),
            Role::Count => self.times = row.value,
            Role::BodyOpen => self.enter(Outer::Repeat(self.times, self.here)),
            Role::ThenOpen => self.enter(Outer::First(self.here)),
            Role::ThenClose => self.flip(),
            Role::WhenClose | Role::ElseClose | Role::BodyClose => self.leave(),
            _ => {}
        }
    }
}

// The steps and readings of all rows, each up to just past its limit.
pub(crate) fn count_all(rows: &[Row]) -> Total
    ensures { result ≡ (count_of rows.now (acc none 0 [])).here }
{
    let mut tally = Tally::none();
    for row in rows {
        tally.step(row);
    }
    tally.here
}
