// The phase correction. A phase is a u32, one turn being 2^32.
#![tactic(auto)]

pub mod correction;
