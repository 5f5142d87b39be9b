// The plain types of the count of steps and readings.
ghost use Rattle.std.specs.Prelude.{◌≡◌, ◌+◌, ◌*◌, ◌≤◌, min, length};

use list::fixed::Fixed;
use std::marker::Model;
use std::ops::{Add, Mul};

// A number that stops rising at its limit, which it never passes by adding or multiplying.
#[derive(Clone, Copy, PartialEq, Eq, PartialOrd, Ord, Default)]
pub(crate) struct Capped<const MOST: u64> {
    number: u64,
}

impl<const MOST: u64> Model for Capped<MOST> {
    ghost use Rattle.std.specs.Prelude.{ℕ};

    ghost Value = { ℕ };

    ghost view = { λ c. c.number };

    ghost inverse = { λ n. record { number = n } };

    ghost inverse_ok = { λ c h i. c };
}

impl<const MOST: u64> Capped<MOST> {
    pub(crate) fn new(number: u64) -> Self
        ensures { result ≡ number }
    {
        Capped { number }
    }

    pub(crate) fn get(self) -> u64
        ensures { result ≡ self.entry }
    {
        self.number
    }
}

impl<const MOST: u64> Add for Capped<MOST> {
    type Output = Self;

    ghost add_gives = { λ a b sum. sum ≡ min (a + b) MOST };

    fn add(self, other: Self) -> Self {
        Capped::new(self.number.saturating_add(other.number).min(MOST))
    }
}

impl<const MOST: u64> Mul<u32> for Capped<MOST> {
    type Output = Self;

    ghost mul_gives = { λ a n product. product ≡ min (n * a) MOST };

    fn mul(self, n: u32) -> Self {
        Capped::new(u64::from(n).saturating_mul(self.number).min(MOST))
    }
}

// Each stops just past what a script may have, so that nothing overflows and the comparison is right.
pub(crate) type Steps = Capped<1_000_001>;

pub(crate) type Readings = Capped<4_097>;

#[derive(Clone, Copy, Default)]
pub(crate) struct Total {
    pub(crate) steps: Steps,
    pub(crate) readings: Readings,
}

// What is counted outside a block: of a repeat's body, of an if's first branch, of its second.
#[derive(Clone, Copy)]
pub(crate) enum Outer {
    Repeat(u32, Total),
    First(Total),
    Second(Total, Total),
}

#[derive(Clone, Copy)]
pub(crate) struct Tally {
    pub(crate) here: Total,
    pub(crate) times: u32,
    pub(crate) outer: Fixed<Outer, 16>,
    ghost deep: { length outer.items ≤ 16 },
}
