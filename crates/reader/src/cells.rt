// Finding the numbers that the cells of a script are declared with, by one walk of the rows.
ghost use Rattle.std.specs.Prelude.{◌≡◌, ◌≤◌, true, false, length, take};
ghost use Rattle.script.specs.Numbers.{declared as declared_of, all_fit};
ghost use Rattle.reader.specs.Listed.{signed as signed_of, listed, numbers_in};
ghost use Rattle.reader.specs.Holding.{syntax};

use crate::drive::Script;
use crate::firsts::Declared;
use list::fixed::Fixed;
use script::row::{Role, Row};

impl Declared {
    fn of(numbers: &[i32]) -> Declared
        requires { length numbers.now ≤ 64 }
        ensures { numbers_in result ≡ numbers.now }
    {
        let len = numbers.len();
        let mut values = [0; 64];
        values[..len].copy_from_slice(numbers);
        Declared { values, len }
    }

    pub fn as_slice(&self) -> &[i32]
        ensures { result.now ≡ numbers_in self.now }
    {
        &self.values[..self.len]
    }
}

// A written number, below 0 after a minus.
fn signed(minus: bool, value: u32) -> i32
    requires { value ≤ 2147483647 }
    ensures { result ≡ signed_of minus value }
{
    if minus { -(value as i32) } else { value as i32 }
}

// The numbers in the rows before main. A script has at most 64 cells, so what would not fit never comes.
fn numbers_of(rows: &[Row]) -> Fixed<i32, 64>
    requires { all_fit rows.now ≡ true }
    ensures { result.items ≡ take 64 (listed false rows.now) }
{
    let mut values = Fixed::new();
    let mut minus = false;
    for row in rows {
        if row.role == Role::MainWord {
            break;
        }
        if row.role == Role::CellNumber {
            values.push(signed(minus, row.value));
        }
        minus = row.role == Role::CellMinus;
    }
    values
}

impl Script {
    // The numbers that the cells are declared with.
    pub fn declared(&self) -> Declared
        ensures { numbers_in result ≡ declared_of (syntax self.now).decls }
    {
        Declared::of(numbers_of(self.rows()).as_slice())
    }
}
