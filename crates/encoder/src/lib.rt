// The multiplex encoder's block.
#![tactic(auto)]

pub mod stereo;
