// A summary beside the pairs in Q15 under C names, for a program in Rust or C to call.
#![tactic(auto)]

mod in_q15;
