// Where a place in a text is for a person: its line, its column, and the bytes of that line.
#![tactic(auto)]

pub mod excerpt;
pub mod spot;
