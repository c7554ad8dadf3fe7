// A round of a rack in Q15 under C names, for a program in Rust or C to call.
#![tactic(auto)]

pub mod in_q15;
