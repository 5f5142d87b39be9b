// Reading a script from its text, and what can be asked of a read script.
ghost use Rattle.std.specs.Prelude.{◌≡◌, ◌+◌, ◌*◌, ◌≤◌, length, MatchResult};
ghost use Rattle.script.specs.Questions.{FirstNo, OneSyntax, MeansBack};
ghost use Rattle.script.specs.Steps.{cells as cells_of, locals as locals_of, steps_of, readings_of, need as need_of};
ghost use Rattle.script.specs.Written.{rows as rows_of};
ghost use Rattle.reader.specs.Holding.{Holds, rows_in, syntax, empty};
ghost use Rattle.reader.specs.Stages.{Parsed};

use crate::drive::Script;
use crate::stages::{ask_bounds, ask_names, cells_of, names_of};
use lexer::tokens::Tokens;
use parser::rows::Rows;
use script::fault::Fault;
use script::row::{Role, Row};

// Questions 7 to 12 on the rows read from the text, and the script that they are.
fn build(text: &[u8], rows: &[Row]) -> Result<Script, Fault>
    requires { Parsed text.now rows.now }
    ensures { MatchResult result (λ s. Holds text.now (rows_in s)) (λ f. FirstNo text.now f) }
{
    ask_names(text, rows)?;
    let total = ask_bounds(rows)?;
    let names = names_of(text, rows);
    let cells = cells_of(text, rows).list.len();
    Ok(Script {
        rows: names.number_all(rows),
        len: rows.len(),
        cells,
        locals: names.list.len() - cells,
        steps: total.steps.get(),
        readings: total.readings.get(),
    })
}

// All questions in their order.
fn read_text(text: &[u8]) -> Result<Script, Fault>
    ensures { MatchResult result (λ s. Holds text.now (rows_in s)) (λ f. FirstNo text.now f) }
{
    let tokens = Tokens::read(text)?;
    let rows = Rows::parse(tokens.all(), text.len())?;
    build(text, rows.all())
}

impl Script {
    // `main { }`
    pub fn new() -> Script
        ensures { rows_in result ≡ rows_of empty }
    {
        let mut rows = [Row::default(); 2048];
        rows[0] = Row {
            role: Role::MainWord,
            place: 0,
            len: 4,
            value: 0,
        };
        rows[1] = Row {
            role: Role::MainOpen,
            place: 5,
            len: 1,
            value: 0,
        };
        rows[2] = Row {
            role: Role::MainClose,
            place: 7,
            len: 1,
            value: 0,
        };
        Script {
            rows,
            len: 3,
            cells: 0,
            locals: 0,
            steps: 0,
            readings: 0,
        }
    }

    // Replaces the script by the one that the text is, or refuses and leaves it as it was.
    pub fn read(&mut self, text: &[u8]) -> Result<(), Fault>
        ensures answer { MatchResult result (λ _. Holds text.now (rows_in self.new)) (λ f. FirstNo text.now f × (self.new ≡ self.old)) }
        ensures one_syntax { OneSyntax text.now }
        ensures means_back { MeansBack }
    {
        *self = read_text(text)?;
        Ok(())
    }

    pub fn rows(&self) -> &[Row]
        ensures { result.now ≡ rows_in self.now }
    {
        &self.rows[..self.len]
    }

    pub fn cells(&self) -> usize
        ensures { result ≡ cells_of (syntax self.now).decls }
    {
        self.cells
    }

    pub fn locals(&self) -> usize
        ensures { result ≡ locals_of (syntax self.now).decls }
    {
        self.locals
    }

    // The greatest number of steps.
    pub fn steps(&self) -> u64
        ensures { result ≡ steps_of (syntax self.now) }
    {
        self.steps
    }

    // The greatest number of readings.
    pub fn readings(&self) -> u64
        ensures { result ≡ readings_of (syntax self.now) }
    {
        self.readings
    }

    // The units of power that the script needs.
    pub fn need(&self) -> u64
        ensures { result ≡ need_of (syntax self.now) }
    {
        (self.steps + 1) * (self.cells as u64 + 5)
    }
}
