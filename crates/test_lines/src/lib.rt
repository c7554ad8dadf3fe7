// What the programs share that replay a list of the original's answers: what a line holds, and how one
// is read.
#![tactic(auto)]

pub mod line;
pub mod list;
