// The stereo decoder: the plain machine (specs/) and the pilot loop with its lock decision in f32, the
// plain way.
#![tactic(auto)]

pub mod lengths;
pub mod parts;
pub mod plain;
