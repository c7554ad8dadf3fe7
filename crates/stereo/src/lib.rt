// What a receiver calls: the decoder lent and changed by the fast block, one entry a format.
#![tactic(auto)]

pub mod lent_f32;
pub mod lent_q15;
