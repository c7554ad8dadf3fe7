// The number helpers that the stereo layer stands on. Every function is total, and states its
// result as an equation with a definition of specs/.
#![tactic(auto)]

pub mod fixed;
pub mod float;
