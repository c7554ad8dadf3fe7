// The stereo decoder's Q15 record: construction, the calls that only set fields, the read-outs.
#![tactic(auto)]

pub mod pll_q15;
