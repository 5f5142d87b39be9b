// The depth to which braces and parentheses stand in each other.
ghost use Rattle.std.specs.Prelude.{◌≡◌};
ghost use Rattle.script.specs.Faults.{answer};
ghost use Rattle.script.specs.Nesting.{nesting, open_after};

use crate::machine::DEEPEST;
use script::fault::Fault;
use script::refusal::Refusal;
use script::token::{Sym, Tok};

// How many are open after the token, where `open` were before it.
fn open_after(sym: Sym, open: usize) -> Option<usize>
    ensures { result ≡ open_after sym «open» }
{
    match sym {
        Sym::BraceOpen | Sym::ParenOpen => open.checked_add(1).filter(|n| *n <= DEEPEST),
        Sym::BraceClose | Sym::ParenClose => open.checked_sub(1),
        _ => Some(open),
    }
}

// Question 5: no more than 16 braces and parentheses are open at once, and each closing one has an
// opening one before it.
pub(crate) fn nesting(toks: &[Tok]) -> Result<(), Fault>
    ensures { result ≡ answer 5 (nesting toks.now) }
{
    let mut open = 0;
    for t in toks {
        open = open_after(t.sym, open).ok_or(Refusal::TooDeep.at(t.place))?;
    }
    Ok(())
}
