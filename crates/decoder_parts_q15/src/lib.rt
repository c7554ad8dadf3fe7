// The parts of a sample's steps that take any numbers, in Q15.
#![tactic(auto)]

pub mod in_q15;
