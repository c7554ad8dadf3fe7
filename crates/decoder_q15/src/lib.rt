// The stereo decoder in Q15: the pilot loop with its lock decision, plain and fast.
#![tactic(auto)]

pub mod fast;
pub mod parts;
pub mod plain;
