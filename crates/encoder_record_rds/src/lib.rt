// The record of the encoder with RDS: construction, set calls and read-outs.
#![tactic(auto)]

pub mod rds;
