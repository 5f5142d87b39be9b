// A memory of two halves of n words each and a state word, whose bit 0 names the half in force and whose
// bit 1 says open. The kept cells are those of the half in force, the current ones those of the same half
// or, while the memory is open, of the other one. Open copies the half in force to the other and then
// writes the state; put writes the half in force, or the other one while open; close writes the state with
// the half changed and bit 1 clear; mend clears bit 1. A call is cut at the first word without a unit, and
// the words before it stand. specs/Buffer.antt says which words each call writes, and the contract of
// every call gives by equality all the words after it, done or cut.
#![tactic(auto)]

pub mod buffer;
pub mod calls;
pub mod halves;
#[cfg(test)]
mod tests;
