// Left and right from one call: the fast block, and the matrix of its outputs.
#![tactic(auto)]

pub mod generic;
pub mod in_f32;
