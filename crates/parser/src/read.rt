// Reads tokens to the rows of a script, by the table of moves.
ghost use Rattle.std.specs.Prelude.{◌≡◌, ◌≤◌, length, take, drop, None, Ok, Err, MatchResult};
ghost use Rattle.script.specs.Faults.{fault};
ghost use Rattle.script.specs.Written.{Breaks};
ghost use Rattle.script.specs.Nesting.{nesting};
ghost use Rattle.parser.specs.Machine.{run, start, view_of, is_end, otherwise, popped, Goes, Stops, Pops};
ghost use Rattle.parser.specs.Reading.{Read};

use crate::machine::{Machine, Mark, Move, Want};
use crate::rules::{closed_to, closing_of, rule_of};
use list::fixed::Fixed;
use script::fault::Fault;
use script::refusal::Refusal;
use script::row::{Role, Row};
use script::token::{Sym, Tok};

// The token as a row.
fn marked(role: Role, t: Tok) -> Row
    ensures { result ≡ Rattle.parser.specs.Machine.marked role t }
{
    Row {
        role,
        place: t.place,
        len: t.len,
        value: t.value,
    }
}

impl Machine {
    // Nothing is read yet.
    fn new() -> Machine
        ensures { view_of result ≡ start }
    {
        Machine {
            want: Want::Decl,
            stack: Fixed::new(),
        }
    }

    // Closes what is open, if the mark is of its kind.
    fn close(&mut self, mark: Mark, t: Tok, other: bool) -> Result<Row, Fault>
        ensures { MatchResult result (λ row. Pops self.old mark t other row self.new) (λ f. (popped mark (view_of self.old).stack ≡ None) × (f ≡ fault 6 t.place)) }
    {
        let stray = Refusal::NotAScript.at(t.place);
        let frame = self.stack.pop().ok_or(stray)?;
        self.want = closed_to(mark, frame).ok_or(stray)?;
        Ok(marked(closing_of(frame, other), t))
    }

    // One token's move, and the token as a row; `other` says that an else follows it.
    fn advance(&mut self, t: Tok, other: bool) -> Result<Row, Fault>
        ensures { MatchResult result (λ row. Goes self.old t other row self.new) (λ f. Stops self.old t f) }
    {
        match rule_of(self.want, t.sym) {
            Move::Stay(role, want) => {
                self.want = want;
                Ok(marked(role, t))
            }
            Move::Push(role, frame, want) => {
                if !self.stack.push(frame) {
                    return Err(Refusal::TooDeep.at(t.place));
                }
                self.want = want;
                Ok(marked(role, t))
            }
            Move::Pop(mark) => self.close(mark, t, other),
            Move::Refuse => Err(Refusal::NotAScript.at(t.place)),
        }
    }

    // Whether the script is whole.
    fn is_done(&self) -> bool
        ensures { result ≡ is_end self.now.want }
    {
        self.want == Want::End
    }
}

// Whether an else stands at `i`.
fn else_at(toks: &[Tok], i: usize) -> bool
    ensures { result ≡ otherwise (drop i toks.now) }
{
    toks.get(i).is_some_and(|t| t.sym == Sym::Else)
}

// Question 6: the tokens are a script, and each is written to `out` with its role; or the fault's place is that of
// the first token that no script has there, else the text's end. This holds where `out` has room for all the
// tokens, and where question 5 found nothing, since no more than 16 can be open.
pub(crate) fn parse(toks: &[Tok], end: usize, out: &mut [Row]) -> Result<(), Fault>
    ensures beyond { drop (length toks.now) out.new ≡ drop (length toks.now) out.old }
    ensures runs { nesting toks.now ≡ None → length toks.now ≤ length out.old → MatchResult result (λ _. run end toks.now start ≡ Ok (take (length toks.now) out.new)) (λ f. run end toks.now start ≡ Err f) }
    ensures reads { nesting toks.now ≡ None → length toks.now ≤ length out.old → MatchResult result (λ _. Read toks.now (take (length toks.now) out.new)) (λ f. (f ≡ fault 6 f.place) × Breaks end toks.now f.place) }
{
    if out.len() < toks.len() {
        return Err(Refusal::TooManyTokens.at(end));
    }
    let mut machine = Machine::new();
    // by index, since it also looks one token ahead
    for (i, t) in toks.iter().enumerate() {
        out[i] = machine.advance(*t, else_at(toks, i + 1))?;
    }
    if machine.is_done() {
        Ok(())
    } else {
        Err(Refusal::NotAScript.at(end))
    }
}

#[cfg(test)]
mod tests {
    use crate::nest::nesting;
    use crate::read::parse;
    use script::row::{Role, Row};
    use script::token::{Sym, Tok};
    use std::test::Fail;

    fn tok(sym: Sym, place: usize) -> Tok {
        Tok {
            sym,
            place,
            len: 1,
            value: 0,
        }
    }

    #[test]
    fn an_empty_main_is_read(rt: HostRuntime) -> Result<(), Fail> {
        let toks = [
            tok(Sym::Main, 0),
            tok(Sym::BraceOpen, 5),
            tok(Sym::BraceClose, 7),
        ];
        assert!(rt; nesting(&toks).is_ok());
        let mut rows = [Row::default(); 3];
        parse(&toks, 8, &mut rows)?;
        assert_eq!(rt; rows[2].role, Role::MainClose);
        assert_eq!(rt; rows[2].place, 7);
        Ok(())
    }

    #[test]
    fn the_role_of_a_brace_tells_of_an_else(rt: HostRuntime) -> Result<(), Fail> {
        let toks = [
            tok(Sym::Main, 0),
            tok(Sym::BraceOpen, 1),
            tok(Sym::If, 2),
            tok(Sym::Name, 3),
            tok(Sym::BraceOpen, 4),
            tok(Sym::BraceClose, 5),
            tok(Sym::Else, 6),
            tok(Sym::BraceOpen, 7),
            tok(Sym::BraceClose, 8),
            tok(Sym::BraceClose, 9),
        ];
        let mut rows = [Row::default(); 10];
        parse(&toks, 10, &mut rows)?;
        assert_eq!(rt; rows[5].role, Role::ThenClose);
        assert_eq!(rt; rows[8].role, Role::ElseClose);
        assert_eq!(rt; rows[9].role, Role::MainClose);
        Ok(())
    }

    #[test]
    fn an_expression_is_read(rt: HostRuntime) -> Result<(), Fail> {
        let toks = [
            tok(Sym::Main, 0),
            tok(Sym::BraceOpen, 1),
            tok(Sym::Name, 2),
            tok(Sym::Assign, 3),
            tok(Sym::ParenOpen, 4),
            tok(Sym::Minus, 5),
            tok(Sym::Number, 6),
            tok(Sym::Minus, 7),
            tok(Sym::Name, 8),
            tok(Sym::ParenClose, 9),
            tok(Sym::Less, 10),
            tok(Sym::Number, 11),
            tok(Sym::Semicolon, 12),
            tok(Sym::BraceClose, 13),
        ];
        let mut rows = [Row::default(); 14];
        parse(&toks, 14, &mut rows)?;
        assert_eq!(rt; rows[5].role, Role::Negate);
        assert_eq!(rt; rows[7].role, Role::Minus);
        assert_eq!(rt; rows[12].role, Role::SetEnd);
        Ok(())
    }

    #[test]
    fn a_stray_token_is_pointed_at(rt: HostRuntime) {
        let toks = [tok(Sym::Main, 0), tok(Sym::BraceOpen, 5), tok(Sym::Else, 7)];
        let mut rows = [Row::default(); 3];
        assert_eq!(rt; parse(&toks, 11, &mut rows).err().map(|f| f.place), Some(7));
    }

    #[test]
    fn an_open_block_ends_at_the_texts_end(rt: HostRuntime) {
        let toks = [tok(Sym::Main, 0), tok(Sym::BraceOpen, 5)];
        let mut rows = [Row::default(); 2];
        assert_eq!(rt; parse(&toks, 6, &mut rows).err().map(|f| f.place), Some(6));
    }
}
