// The words of a list of the original's answers, as numbers and floats.
#![tactic(auto)]

pub mod words;
