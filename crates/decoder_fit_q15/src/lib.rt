// Which Q15 records a block takes.
#![tactic(auto)]

pub mod fit;
