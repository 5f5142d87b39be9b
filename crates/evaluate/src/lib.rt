// The value of an expression, from its rows: one walk from left to right, with a level for each
// parenthesis that is open, over the current cells of a memory and the locals. Sum, difference and product
// wrap, and a quotient drops its fraction. The contract of `evaluate` is a walk over the rows
// (specs/Walk.antt); proofs/Worth.antt shows that on the rows of an expression the walk gives its value.
#![tactic(auto)]

mod arithmetic;
pub mod expression;
mod level;
