// Where a run stands in the rows of a script: the row, and a frame for each brace that is open around it.
// What stands behind each name is told by one number, the first power call among its readings. The
// contracts here speak of rows and frames; the runner's proofs show what they come to for a script.
#![tactic(auto)]

pub mod frames;
pub mod heads;
pub mod oldest;
pub mod rows;
mod tidy;
pub mod types;
