// Questions 7 to 12, each put to all rows before the next. Text and rows are handed on as two
// things: only names are looked up in the text, and the other questions are put to rows alone.
ghost use Rattle.std.specs.Prelude.{◌≡◌, map, take, None, MatchResult};
ghost use Rattle.script.specs.Names.{names};
ghost use Rattle.script.specs.Roles.{declares_cell, those};
ghost use Rattle.script.specs.Questions.{FirstNo};
ghost use Rattle.reader.specs.Stages.{Parsed, Named, Unbounded, Bounded};
ghost use Rattle.script.specs.Faults.{fault};
ghost use Rattle.script.specs.Nesting.{nesting};
ghost use Rattle.script.specs.Written.{token, rows as rows_of};
ghost use Rattle.script.specs.Decode.{decode};

use crate::count::Total;
use crate::names::ask;
use crate::names::roles::{declares_cell, declares_local};
use crate::names::table::Names;
use crate::tally::count_all;
use script::fault::Fault;
use script::refusal::Refusal;
use script::row::Row;

// The declared names, cells first. Past 128 there is no room, and question 7 has said no.
pub(crate) fn names_of<'a>(text: &'a [u8], rows: &[Row]) -> Names<'a>
    ensures text { result.text.now ≡ text.now }
    ensures list { result.list.items ≡ take 128 (names rows.now) }
{
    let mut names = cells_of(text, rows);
    names.add(rows, declares_local);
    names
}

pub(crate) fn cells_of<'a>(text: &'a [u8], rows: &[Row]) -> Names<'a>
    ensures text { result.text.now ≡ text.now }
    ensures list { result.list.items ≡ take 128 (those declares_cell rows.now) }
{
    let mut cells = Names::of(text);
    cells.add(rows, declares_cell);
    cells
}

// Questions 7 to 11, on the names.
pub(crate) fn ask_names(text: &[u8], rows: &[Row]) -> Result<(), Fault>
    requires { Parsed text.now rows.now }
    ensures { MatchResult result (λ _. Named text.now rows.now) (λ f. FirstNo text.now f) }
{
    ask::room(rows)?;
    ask::once(text, rows)?;
    names_of(text, rows).declared(rows)?;
    cells_of(text, rows).locals(rows)?;
    ask::ranges(rows)
}

// Question 12: at most 1000000 steps and at most 4096 readings.
pub(crate) fn ask_bounds(rows: &[Row]) -> Result<Total, Fault>
    requires { (rows.now ≡ rows_of (decode rows.now)) × (nesting (map token rows.now) ≡ None) }
    ensures { MatchResult result (λ t. Bounded (decode rows.now) t.steps t.readings) (λ f. (f ≡ fault 12 0) × Unbounded (decode rows.now)) }
{
    let total = count_all(rows);
    if total.steps.get() > 1_000_000 || total.readings.get() > 4_096 {
        return Err(Refusal::TooManySteps.at(0));
    }
    Ok(total)
}
