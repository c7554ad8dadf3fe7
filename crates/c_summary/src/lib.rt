// A summary beside the pairs under C names, for a program in Rust or C to call. The decoder's records are
// those of c_decoder, and all records go in and out by value; answers are numbers, as specs/Coded.antt
// defines them.
#![tactic(auto)]

mod in_f32;
