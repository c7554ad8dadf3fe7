#![tactic(auto)]

pub mod matrix;
