// Which floats are finite, which are positive, and an f32 as an f64.
#![tactic(auto)]

pub mod finite;
