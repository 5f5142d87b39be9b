// Questions 7 to 11, each put to all rows, and the numbering of the names.
ghost use Rattle.std.specs.Prelude.{◌≡◌, ◌+◌, ◌<◌, ◌≤◌, ◌||◌, Bool, [], map, length, take};
ghost use Rattle.std.specs.Fn.{FnReturnsAt};
ghost use Rattle.script.specs.declared.row.Row.{Row};
ghost use Rattle.script.specs.Faults.{answer};
ghost use Rattle.script.specs.Names.{full, crowded, twice, undeclared, into_cell, out_of_range, numbered, no_row};
ghost use Rattle.script.specs.Roles.{declares, mentions, those, first_row};

use crate::names::roles::{declares_cell, declares_local, declares_name, mentions_name};
use crate::names::table::Names;
use script::fault::Fault;
use script::refusal::Refusal;
use script::row::{Role, Row};

fn is_full(cells: usize, locals: usize, row: &Row) -> bool
    ensures { result ≡ full cells locals row.now }
{
    declares_cell(row.role) && cells >= 64 || declares_local(row.role) && locals >= 64
}

// 7: at most 64 cells and at most 64 locals.
pub(crate) fn room(rows: &[Row]) -> Result<(), Fault>
    requires { length rows.now ≤ 2048 }
    ensures { result ≡ answer 7 (crowded 0 0 rows.now) }
{
    let mut cells = 0;
    let mut locals = 0;
    for row in rows {
        if is_full(cells, locals, row) {
            return Err(Refusal::TooManyNames.at(row.place));
        }
        cells += usize::from(declares_cell(row.role));
        locals += usize::from(declares_local(row.role));
    }
    Ok(())
}

// 8: each name is declared once. There are at most 128 declarations, so each finds its place.
pub(crate) fn once(text: &[u8], rows: &[Row]) -> Result<(), Fault>
    requires { length (those declares rows.now) ≤ 128 }
    ensures { result ≡ answer 8 (twice text.now [] rows.now) }
{
    let mut seen = Names::of(text);
    for row in rows {
        if declares_name(row.role) {
            if seen.has(row) {
                return Err(Refusal::DeclaredTwice.at(row.place));
            }
            seen.push(row);
        }
    }
    Ok(())
}

// Where the first row stands that the test holds of.
fn first_place<F: Fn(&Row) -> bool>(rows: &[Row], test: F) -> Option<usize>
    requires { F.IsAlwaysCallable test }
    ensures { (p : Row → Bool) → ((r : Row) (b : Bool) → FnReturnsAt F.Fn test r b → b ≡ p r) → result ≡ first_row p rows.now }
{
    rows.iter().find(|row| test(row)).map(|row| row.place)
}

impl<'a> Names<'a> {
    fn lacks(&self, row: &Row) -> bool
        ensures { result ≡ undeclared self.now.text.now self.now.list.items row.now }
    {
        mentions_name(row.role) && !self.has(row)
    }

    // 9: each name in main is among the declared ones.
    pub(crate) fn declared(&self, rows: &[Row]) -> Result<(), Fault>
        ensures { result ≡ answer 9 (first_row (undeclared self.now.text.now self.now.list.items) rows.now) }
    {
        Refusal::Undeclared.answer(first_place(rows, |row| self.lacks(row)))
    }

    // 10: each reading goes to a local, where these names are the cells.
    pub(crate) fn locals(&self, rows: &[Row]) -> Result<(), Fault>
        ensures { result ≡ answer 10 (into_cell self.now.text.now self.now.list.items no_row rows.now) }
    {
        // The row before any, as the question has it: no reading comes before a target.
        let mut target = Row::default();
        for row in rows {
            if row.role == Role::Target {
                target = *row;
            } else if row.role == Role::InWord && self.has(&target) {
                return Err(Refusal::ReadIntoCell.at(target.place));
            }
        }
        Ok(())
    }
}

// 11: repeat counts from 1 to 1000, channels from 0 to 15.
fn is_out_of_range(row: &Row) -> bool
    ensures { result ≡ out_of_range row.now }
{
    match row.role {
        Role::Count => row.value < 1 || row.value > 1000,
        Role::Channel => row.value > 15,
        _ => false,
    }
}

pub(crate) fn ranges(rows: &[Row]) -> Result<(), Fault>
    ensures { result ≡ answer 11 (first_row out_of_range rows.now) }
{
    Refusal::OutOfRange.answer(first_place(rows, is_out_of_range))
}

fn is_name(role: Role) -> bool
    ensures { result ≡ (declares role || mentions role) }
{
    declares_name(role) || mentions_name(role)
}

impl<'a> Names<'a> {
    // The row with the name's number, which is where it stands among the names.
    fn number(&self, row: &Row) -> Row
        ensures { result ≡ numbered self.now.text.now self.now.list.items row.now }
    {
        if !is_name(row.role) {
            return *row;
        }
        Row {
            value: self.index(row) as u32,
            ..*row
        }
    }

    // The rows with each name's number.
    pub(crate) fn number_all(&self, rows: &[Row]) -> [Row; 2048]
        requires { length rows.now ≤ 2048 }
        ensures { take (length rows.now) result ≡ map (numbered self.now.text.now self.now.list.items) rows.now }
    {
        let mut table = [Row::default(); 2048];
        for (i, row) in rows.iter().enumerate() {
            table[i] = self.number(row);
        }
        table
    }
}
