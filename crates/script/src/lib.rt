// What every layer of Heronnail speaks of: the tokens of a drive script, the rows of a read script
// (each token with the role that it has in the script), how a name stands, what each question refuses, and
// the fault that turns an input down.
// The definitions that a reader has to believe stand in specs/: what the tokens of a text are, how a
// script is written, what each question asks, how many steps a script takes, and how its names stand.
#![tactic(auto)]

pub mod fault;
pub mod refusal;
pub mod row;
pub mod standing;
pub mod token;
