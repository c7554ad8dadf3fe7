// The count of a list's lines: which agree, which differ, which are malformed.
#![tactic(auto)]

pub mod tally;
