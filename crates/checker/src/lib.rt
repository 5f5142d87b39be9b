// Question 13, the check of a read script: no use of a name declared fresh, and of a name listed in a
// together, may have a reading behind it that a power failure can make old. A value of `Accepted` is a
// read script that passed; `accept` is the only way to make one, so what takes an `Accepted` cannot be
// given a script that was not checked.
#![tactic(auto)]

pub mod accept;
pub mod accepted;
mod braces;
mod first;
mod table;
mod types;
mod walk;
