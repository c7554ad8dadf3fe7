// The stereo decoder's f32 record: construction, the calls that only set fields, and the read-outs.
#![tactic(auto)]

pub mod pll_f32;
