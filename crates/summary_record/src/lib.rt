// A summary's record in both formats: a fresh one, which one a call takes, the larger of two magnitudes.
#![tactic(auto)]

pub mod in_f32;
pub mod in_q15;
