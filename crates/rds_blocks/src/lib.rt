// RDS blocks: a word's check is a remainder over bits, and a block is a word and its checkword.
#![tactic(auto)]

pub mod blocks;
pub mod division;
