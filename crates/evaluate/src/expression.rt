// The walk over an expression's rows.
ghost use Rattle.std.specs.Prelude.{◌≡◌, [], pos, None, Some};
ghost use Rattle.script.specs.Unbroken.{valued};
ghost use Rattle.evaluate.specs.Walk.{level, factor as factor_of, total as total_of, finish as finish_of, blank, on, opened, closed, does, operand as operand_of, worth, at_of, IsValueOf};

use crate::arithmetic;
use crate::level::{By, Comparison, Level, Levels, Sign};
use list::fixed::Fixed;
use memory::Memory;
use script::row::{Role, Row};

impl Level {
    // A factor goes into this term.
    fn factor(self, value: i32) -> Level
        ensures { result ≡ factor_of value self }
    {
        let part = match self.by {
            None => value,
            Some(By::Times) => arithmetic::multiply(self.part, value),
            Some(By::Over) => arithmetic::divide(self.part, value),
        };
        Level {
            part,
            by: None,
            ..self
        }
    }

    // The sum, with this term.
    fn total(self) -> i32
        ensures { result ≡ total_of self }
    {
        match self.sum {
            None => self.part,
            Some((sum, Sign::Plus)) => arithmetic::add(sum, self.part),
            Some((sum, Sign::Minus)) => arithmetic::subtract(sum, self.part),
        }
    }

    fn finish(self) -> i32
        ensures { result ≡ finish_of self }
    {
        let right = self.total();
        match self.left {
            None => right,
            Some((left, Comparison::Less)) => arithmetic::less(left, right),
            Some((left, Comparison::Same)) => arithmetic::same(left, right),
        }
    }

    // The next factor goes into this term.
    fn next_factor(self, by: By) -> Level
        ensures { result ≡ level self.left self.sum self.part (Some by) }
    {
        Level {
            by: Some(by),
            ..self
        }
    }

    // The next term goes into the sum so far.
    fn next_term(self, sign: Sign) -> Level
        ensures { result ≡ level self.left (Some (total_of self, sign)) (pos 0) None }
    {
        Level {
            left: self.left,
            sum: Some((self.total(), sign)),
            ..Level::default()
        }
    }

    // The other side of a comparison.
    fn other_side(self, comparison: Comparison) -> Level
        ensures { result ≡ level (Some (total_of self, comparison)) None (pos 0) None }
    {
        Level {
            left: Some((self.total(), comparison)),
            ..Level::default()
        }
    }
}

impl Levels {
    fn new() -> Levels
        ensures { at_of result ≡ on blank [] }
    {
        Levels {
            here: Level::default(),
            outer: Fixed::new(),
        }
    }

    // A parenthesis. No script has more open than there is room for, so what would not fit never comes.
    fn open(&mut self)
        ensures { at_of self.new ≡ opened (at_of self.old).here (at_of self.old).outer }
    {
        if self.outer.push(self.here) {
            self.here = Level::default();
        }
    }

    fn close(&mut self)
        ensures { at_of self.new ≡ closed (finish_of (at_of self.old).here) (at_of self.old).here (at_of self.old).outer }
    {
        if let Some(level) = self.outer.pop() {
            self.here = level.factor(self.here.finish());
        }
    }

    // One row, with the value of its name or number.
    fn take(&mut self, role: Role, value: i32)
        ensures { at_of self.new ≡ does role value (at_of self.old).here (at_of self.old).outer }
    {
        match role {
            Role::Operand | Role::Literal => self.here = self.here.factor(value),
            Role::Negated => self.here = self.here.factor(arithmetic::subtract(0, value)),
            Role::ParenOpen => self.open(),
            Role::ParenClose => self.close(),
            Role::Times => self.here = self.here.next_factor(By::Times),
            Role::Over => self.here = self.here.next_factor(By::Over),
            Role::Plus => self.here = self.here.next_term(Sign::Plus),
            Role::Minus => self.here = self.here.next_term(Sign::Minus),
            Role::Less => self.here = self.here.other_side(Comparison::Less),
            Role::Same => self.here = self.here.other_side(Comparison::Same),
            _ => {}
        }
    }
}

// What the names of an expression stand for, by their numbers: the current cells of a memory, and then the
// locals.
#[derive_where(Clone, Copy)]
struct Values<'a, M> {
    cells: usize,
    memory: &'a M,
    locals: &'a [i32; 64],
}

impl<M: Memory> Values<'_, M> {
    // The value of a name by its number.
    fn of_name(&self, name: u32) -> i32
        ensures { result ≡ valued self.now.cells (M.Memory.model.means (M.Memory.state self.now.memory.now)).current self.now.locals.now name }
    {
        let i = name as usize;
        if i < self.cells {
            return self.memory.get(name).unwrap_or(0);
        }
        let locals = self.locals;
        locals.get(i - self.cells).copied().unwrap_or(0)
    }

    // The value of a row's name or number.
    fn of_row(&self, row: &Row) -> i32
        ensures { result ≡ operand_of (valued self.now.cells (M.Memory.model.means (M.Memory.state self.now.memory.now)).current self.now.locals.now) row.now.role row.now.value }
    {
        match row.role {
            Role::Operand => self.of_name(row.value),
            _ => arithmetic::literal(row.value),
        }
    }
}

// The value of an expression, by its rows.
pub fn evaluate<M: Memory>(rows: &[Row], cells: usize, memory: &M, locals: &[i32; 64]) -> i32
    ensures walked { result ≡ worth (valued cells (M.Memory.model.means (M.Memory.state memory.now)).current locals.now) rows.now }
    ensures value { IsValueOf (valued cells (M.Memory.model.means (M.Memory.state memory.now)).current locals.now) rows.now result }
{
    let values = Values {
        cells,
        memory,
        locals,
    };
    let mut levels = Levels::new();
    for row in rows {
        levels.take(row.role, values.of_row(row));
    }
    levels.here.finish()
}
