// Says of the tokens of a text whether they are a script, and gives each token the role that it has
// there. What a script is, and how it is written, stands in the crate `script`.
#![tactic(auto)]

mod machine;
mod nest;
mod read;
pub mod rows;
mod rules;
