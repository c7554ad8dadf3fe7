// The digits of an f64's pattern, cut at a place.
#![tactic(auto)]

pub mod cut;
