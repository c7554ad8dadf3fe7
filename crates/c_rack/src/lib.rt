// A round of a rack under C names, for a program in Rust or C to call. The decoders' records are those of
// c_decoder, and all records go in and out by value; answers are numbers, as specs/Coded.antt defines them.
#![tactic(auto)]

pub mod in_f32;
pub mod shared;
