// Reads a drive script's bytes as tokens. A `Lexer` gives the tokens one by one, each borrowing its
// bytes from the script; `Tokens` are the plain records of all of them, once questions 1 to 4 have
// nothing against the text. Everything refuses by a `Fault` that has the number of the question and
// the place in the text.
#![tactic(auto)]

pub mod scan;
pub mod sizes;
mod table;
pub mod tokens;
