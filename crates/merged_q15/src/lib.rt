// Left and right from one call in Q15: the fast block, and the matrix of its outputs.
#![tactic(auto)]

pub mod in_q15;
