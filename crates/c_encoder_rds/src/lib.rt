// The encoder with RDS under C names, for a program in Rust or C to call.
#![tactic(auto)]

mod rds;
