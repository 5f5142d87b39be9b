// The beginnings of the runner, which is to play a script over power failures: each kind of step on a point
// of a run (steps), and the step at a target (power). The calls that a user makes on a run are still to be
// written, and nothing calls this crate yet. A run goes through the rows of its script; specs/Walk.antt says
// what each call does to rows and frames. That this is what crate `runs` defines is still to be proved.
#![tactic(auto)]

mod power;
mod steps;
mod types;
