// What a run of a script is, over power failures, and what is promised of it. The code here is only the
// types that a caller sees: a reading as the list has it, a call, its answer, and the report at the end.
// The definitions stand in specs/: what is left to do and what stands behind each name (Behind), what one
// step and one power call do (Machine), the calls and their refusals (Calls), and the promise over whole
// runs (Promise). The proofs of the promise, for every memory that keeps its laws, stand in proofs/.
#![tactic(auto)]

pub mod types;
