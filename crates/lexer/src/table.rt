// The table of a text's tokens: their plain records, in the order of the text.
ghost use Rattle.std.specs.Prelude.{◌≡◌, ◌+◌, ◌-◌, ◌*◌, ◌≤◌, ◌⊎◌, length, take, min, IfOk, IfErr, Ok, Err, MatchResult};
ghost use Rattle.script.specs.Tokens.{tokens, value_of, word};
ghost use Rattle.lexer.specs.Places.{Inside, Rising, Full};
ghost use Rattle.lexer.specs.Plain.{plain, sym_of_mark};

use crate::scan::{Lexer, Token, mark_sym};
use script::fault::Fault;
use script::refusal::Refusal;
use script::token::{Sym, Tok};

// One more than the greatest number that a script may have: what a token says of any greater one.
const TOO_LARGE: u32 = 2147483648;

// The reserved words have symbols of their own, and every other word is a name.
fn word_sym(text: &[u8]) -> Sym
    ensures { result ≡ word text.now }
{
    match text {
        b"cell" => Sym::Cell,
        b"var" => Sym::Var,
        b"fresh" => Sym::Fresh,
        b"main" => Sym::Main,
        b"in" => Sym::In,
        b"if" => Sym::If,
        b"else" => Sym::Else,
        b"repeat" => Sym::Repeat,
        b"atomic" => Sym::Atomic,
        b"together" => Sym::Together,
        _ => Sym::Name,
    }
}

// `==` is the only mark of two bytes.
fn sym_of_mark(text: &[u8]) -> Sym
    ensures { result ≡ sym_of_mark text.now }
{
    match text {
        [b] => mark_sym(*b).unwrap_or(Sym::Same),
        _ => Sym::Same,
    }
}

// What a token of the digits read so far says, once the digit `d` is read too. No sum wraps, since it
// stops growing at `TOO_LARGE`.
fn one_more(n: u32, d: u8) -> u32
    ensures { result ≡ min (n * 10 + (d - 48)) 2147483648 }
{
    let d = u32::from(d.saturating_sub(b'0'));
    n.saturating_mul(10).saturating_add(d).min(TOO_LARGE)
}

// The number that the digits write.
fn value(digits: &[u8]) -> u32
    ensures { result ≡ value_of digits.now }
{
    digits.iter().fold(0, |n, d| one_more(n, *d))
}

// The plain record of a token that begins at `place`.
fn record(token: Token<'_>, place: usize) -> Tok
    ensures { result ≡ plain token.entry place }
{
    match token {
        Token::Word(text) => Tok {
            sym: word_sym(text),
            place,
            len: text.len(),
            value: 0,
        },
        Token::Number(text) => Tok {
            sym: Sym::Number,
            place,
            len: text.len(),
            value: value(text),
        },
        Token::Mark(text) => Tok {
            sym: sym_of_mark(text),
            place,
            len: text.len(),
            value: 0,
        },
    }
}

// Writes the records of the text's tokens to `out`, and answers how many there are. A table as long as the text
// is long enough, since each token has a byte. It is lent, since a list given back would be copied once more.
pub(crate) fn read_tokens(text: &[u8], out: &mut [Tok]) -> Result<usize, Fault>
    ensures table { MatchResult result (λ n. tokens text.now ≡ Ok (take n out.new)) (λ f. length text.now ≤ length out.old → tokens text.now ≡ Err f) }
    ensures full { IfErr result (λ f. (tokens text.now ≡ Err f) ⊎ Full text.now out.new f) }
    ensures count { IfOk result (λ n. (n ≤ length text.now) × (n ≤ length out.old)) }
    ensures inside { IfOk result (λ n. Inside (length text.now) (take n out.new)) }
    ensures rising { IfOk result (λ n. Rising (take n out.new)) }
{
    let mut lexer = Lexer::new(text);
    let mut n = 0;
    while let Some((token, place)) = lexer.next()? {
        if n >= out.len() {
            return Err(Refusal::TooManyTokens.at(place));
        }
        out[n] = record(token, place);
        n += 1;
    }
    Ok(n)
}

#[cfg(test)]
mod tests {
    use super::*;
    use std::test::Fail;

    #[test]
    fn reads_words_numbers_and_marks(rt: HostRuntime) -> Result<(), Fail> {
        let mut table = [Tok::default(); 16];
        let len = read_tokens(b"cell a_1 == 12;", &mut table)?;
        let toks = &table[..len];
        assert_eq!(rt; toks.len(), 5);
        assert!(rt; toks[0].sym == Sym::Cell && toks[1].sym == Sym::Name);
        assert!(rt; toks[2].sym == Sym::Same && toks[2].place == 9 && toks[2].len == 2);
        assert!(rt; toks[3].sym == Sym::Number && toks[3].value == 12);
        assert!(rt; toks[4].sym == Sym::Semicolon && toks[4].place == 14);
        Ok(())
    }

    #[test]
    fn says_where_a_byte_is_no_part_of_a_token(rt: HostRuntime) {
        // by the number, which is what is promised
        let mut table = [Tok::default(); 16];
        assert_eq!(rt; read_tokens(b"in 7 ?", &mut table), Err(Fault::new(2, 5)));
    }

    #[test]
    fn large_numbers_are_one(rt: HostRuntime) -> Result<(), Fail> {
        let mut table = [Tok::default(); 16];
        let len = read_tokens(b"99999999999999", &mut table)?;
        let toks = &table[..len];
        assert_eq!(rt; toks.len(), 1);
        assert!(rt; toks[0].value == 2147483648 && toks[0].len == 14);
        Ok(())
    }

    #[test]
    fn a_full_table_says_where(rt: HostRuntime) {
        // by the number, which is what is promised
        let mut table = [Tok::default(); 2];
        assert_eq!(rt; read_tokens(b"a b  c", &mut table), Err(Fault::new(4, 5)));
    }
}
