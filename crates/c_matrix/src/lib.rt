// Both matrices under C names, for a program in Rust or C to call.
#![tactic(auto)]

mod matrices;
