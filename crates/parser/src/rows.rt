// The rows of a script: questions 4 to 6 in their order.
ghost use Rattle.std.specs.Prelude.{◌≡◌, ◌≤◌, length, MatchResult};
ghost use Rattle.parser.specs.Reading.{Parses, Unparsed};

use crate::nest::nesting;
use crate::read::parse;
use lexer::sizes::count;
use list::fixed::Fixed;
use script::fault::Fault;
use script::row::Row;
use script::token::Tok;

// Each token with its role. Question 4, asked again, says that there is room for all of them.
#[derive(Drop)]
pub struct Rows {
    list: Fixed<Row, 2048>,
    ghost short: { length list.items ≤ 2048 },
}

impl Rows {
    // The rows of the tokens of a text that has `end` bytes.
    pub fn parse(toks: &[Tok], end: usize) -> Result<Rows, Fault>
        ensures { MatchResult result (λ t. Parses toks.now t.list.items) (λ f. Unparsed end toks.now f) }
    {
        count(toks)?;
        nesting(toks)?;
        let mut table = [Row::default(); 2048];
        parse(toks, end, &mut table)?;
        Ok(Rows {
            list: Fixed::filled(table, toks.len()),
        })
    }

    pub fn all(&self) -> &[Row]
        ensures { result.now ≡ self.now.list.items }
    {
        self.list.as_slice()
    }
}
