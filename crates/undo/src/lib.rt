// A memory that keeps an undo log: n cell words, n pairs of a cell number and an old value, and a state
// word, 0 for closed and 1 + k for open with k pairs in force. While it is open, the first put of a cell
// writes number, old value, state and cell, and every other put only the cell; the kept cells are the
// current ones with the pairs' old values written back. Open writes state 1, close state 0, and mend each
// old value back and then state 0. A call is cut at the first word without a unit, and the words before
// it stand. specs/Log.antt says which words each call writes, and the contract of every call gives by
// equality all the words after it, done or cut.
#![tactic(auto)]

pub mod calls;
pub mod log;
#[cfg(test)]
mod tests;
pub mod words;
