// The tokens of a text, all of them: questions 1 to 4 in their order.
ghost use Rattle.std.specs.Prelude.{◌≡◌, ◌≤◌, length, Ok, Err, MatchResult};
ghost use Rattle.script.specs.Sizes.{scanned};

use crate::sizes::{count, lengths, size};
use crate::table::read_tokens;
use list::fixed::Fixed;
use script::fault::Fault;
use script::token::Tok;

// A text has at most 8192 bytes, and each token a byte or more, so that all tokens find room; those of
// a text that question 4 lets through are at most 2048.
#[derive(Drop)]
pub struct Tokens {
    list: Fixed<Tok, 8192>,
    ghost short: { length list.items ≤ 8192 },
}

impl Tokens {
    pub fn read(text: &[u8]) -> Result<Tokens, Fault>
        ensures { MatchResult result (λ t. scanned text.now ≡ Ok t.list.items) (λ f. scanned text.now ≡ Err f) }
    {
        size(text)?;
        let mut table = [Tok::default(); 8192];
        let len = read_tokens(text, &mut table)?;
        lengths(&table[..len])?;
        count(&table[..len])?;
        Ok(Tokens {
            list: Fixed::filled(table, len),
        })
    }

    pub fn all(&self) -> &[Tok]
        ensures { result.now ≡ self.now.list.items }
    {
        self.list.as_slice()
    }
}
