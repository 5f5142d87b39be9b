// Runs scripts through reading and the check, and compares each refusal's number, place and layer with
// what was worked out by hand: the edges of every question from both sides, scripts with two faults, a
// script cut short, and what a refusal leaves as it was. A case is a script with `@` written just
// before the place of its fault; a long script is given by its pieces, each with how many times it
// stands. There is nothing here but tests.
#![tactic(auto)]

#[cfg(test)]
mod ask;
#[cfg(test)]
mod names;
#[cfg(test)]
mod pairs;
#[cfg(test)]
mod regions;
#[cfg(test)]
mod state;
#[cfg(test)]
mod text;
