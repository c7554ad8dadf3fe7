// The Q15 decoder under C names, for a program in Rust or C to call.
#![tactic(auto)]

pub mod in_q15;
