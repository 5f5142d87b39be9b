// The questions on sizes: how long a text is, how long its names and how large its numbers are, and
// how many tokens it has. Each refuses at the first place where there is too much.
ghost use Rattle.std.specs.Prelude.{◌≡◌, drop};
ghost use Rattle.script.specs.Faults.{answer};
ghost use Rattle.script.specs.Sizes.{past_bytes, first_where, too_long, first_place, past_tokens};

use script::fault::Fault;
use script::refusal::Refusal;
use script::token::{Sym, Tok};

const MAX_BYTES: usize = 8192;

const MAX_NAME: usize = 24;

const MAX_NUMBER: u32 = 2147483647;

const MAX_TOKENS: usize = 2048;

// Question 1: at most `MAX_BYTES` bytes.
pub(crate) fn size(text: &[u8]) -> Result<(), Fault>
    ensures { result ≡ answer 1 (past_bytes text.now) }
{
    if text.len() <= MAX_BYTES {
        Ok(())
    } else {
        Err(Refusal::TextTooLong.at(MAX_BYTES))
    }
}

// A number past the limit has a value past it too, since its token keeps one more than the limit.
fn is_too_long(t: Tok) -> bool
    ensures { result ≡ too_long t }
{
    match t.sym {
        Sym::Name => t.len > MAX_NAME,
        Sym::Number => t.value > MAX_NUMBER,
        _ => false,
    }
}

// The place of the first token that question 3 refuses. A loop: with the closures of `find` the compiler copied the
// whole table of tokens once more where `Tokens::read` is inlined, and set as much.
fn first_too_long(toks: &[Tok]) -> Option<usize>
    ensures { result ≡ first_where too_long toks.now }
{
    for t in toks {
        if is_too_long(*t) {
            return Some(t.place);
        }
    }
    None
}

// Question 3: names of at most `MAX_NAME` bytes, and numbers of at most `MAX_NUMBER`. The reserved
// words and the marks are short, so that only names and numbers are asked.
pub(crate) fn lengths(toks: &[Tok]) -> Result<(), Fault>
    ensures { result ≡ answer 3 (first_where too_long toks.now) }
{
    Refusal::TokenTooLarge.answer(first_too_long(toks))
}

// The place of the token that has `n` before it, if there are so many.
fn place_past(toks: &[Tok], n: usize) -> Option<usize>
    ensures { result ≡ first_place (drop n toks.now) }
{
    toks.get(n).map(|t| t.place)
}

// Question 4: at most `MAX_TOKENS` tokens.
pub fn count(toks: &[Tok]) -> Result<(), Fault>
    ensures { result ≡ answer 4 (past_tokens toks.now) }
{
    Refusal::TooManyTokens.answer(place_past(toks, MAX_TOKENS))
}

#[cfg(test)]
mod tests {
    use super::*;

    #[test]
    fn the_longest_name_is_taken(rt: HostRuntime) {
        let name = Tok {
            sym: Sym::Name,
            place: 3,
            len: 24,
            value: 0,
        };
        assert!(rt; lengths(&[name, name]).is_ok());
    }

    #[test]
    fn the_first_too_long_is_refused(rt: HostRuntime) {
        let name = Tok {
            sym: Sym::Name,
            place: 3,
            len: 24,
            value: 0,
        };
        let number = Tok {
            sym: Sym::Number,
            place: 40,
            len: 10,
            value: 2147483648,
        };
        // by the number, which is what is promised
        assert_eq!(rt; lengths(&[name, number]), Err(Fault::new(3, 40)));
    }
}
