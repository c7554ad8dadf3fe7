// The cosine lookup in a Q15 table. A phase is a u32, one turn being 2^32.
#![tactic(auto)]

pub mod in_q15;
