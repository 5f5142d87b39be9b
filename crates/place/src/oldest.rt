// What stands behind each name, by one number: the first power call among the readings.
ghost use Rattle.std.specs.Prelude.{◌≡◌, ◌≤◌, length, replicate, slice_set};
ghost use Rattle.place.specs.Places.{behind_of, never, of_name, first_in, join_row, join_rows, counts, stale_in};

use crate::types::Oldest;
use list::slots::set_at;
use script::row::{Role, Row};

// No reading. A number and no `None`: the public `put`, `first` and `join` take and give the number, and what is
// kept is what they speak of. It is later than every power call, so `min` and `<` are those of numbers.
const NEVER: u32 = u32::MAX;

// Whether a row is a use: of a name declared fresh in an expression, of any name in a together.
fn is_use(row: &Row, fresh: &[bool; 128]) -> bool
    ensures { result ≡ counts fresh.now row.now }
{
    match row.role {
        Role::Operand => fresh.get(row.value as usize).copied().unwrap_or(false),
        Role::Listed => true,
        _ => false,
    }
}

impl Oldest {
    // No name has a reading behind it.
    pub fn none() -> Oldest
        ensures { behind_of result ≡ replicate 128 never }
    {
        Oldest { of: [NEVER; 128] }
    }

    fn get(&self, name: u32) -> u32
        ensures { result ≡ of_name (behind_of self.now) name }
    {
        self.of.get(name as usize).copied().unwrap_or(NEVER)
    }

    // Of the readings behind the name the first falls in this power call.
    pub fn put(&mut self, name: u32, call: u32)
        ensures { behind_of self.new ≡ slice_set (behind_of self.old) name call }
    {
        set_at(&mut self.of, name as usize, call);
    }

    // The first power call among the readings behind an expression.
    pub fn first(&self, rows: &[Row]) -> u32
        ensures { result ≡ first_in (behind_of self.now) rows.now }
    {
        rows.iter()
            .filter(|row| row.role == Role::Operand)
            .map(|row| self.get(row.value))
            .fold(NEVER, u32::min)
    }

    fn join_row(&mut self, row: &Row, call: u32)
        ensures { behind_of self.new ≡ join_row call row.now (behind_of self.old) }
    {
        if row.role == Role::Target {
            self.put(row.value, self.get(row.value).min(call));
        }
    }

    // Each name that the rows assign also has readings behind it of which the first falls in this call.
    pub fn join(&mut self, rows: &[Row], call: u32)
        ensures { behind_of self.new ≡ join_rows call rows.now (behind_of self.old) }
    {
        for row in rows {
            self.join_row(row, call);
        }
    }

    // How many of the uses in the rows have a reading of an earlier power call behind them.
    pub fn stale(&self, rows: &[Row], fresh: &[bool; 128], call: u32) -> usize
        ensures count { result ≡ stale_in fresh.now (behind_of self.now) call rows.now }
        ensures few { result ≤ length rows.now }
    {
        rows.iter()
            .filter(|row| is_use(row, fresh) && self.get(row.value) < call)
            .count()
    }
}
