// The multiplex encoder's record: construction, set calls and read-outs.
#![tactic(auto)]

pub mod encode;
