// The block of the encoder with RDS.
#![tactic(auto)]

pub mod rds;
