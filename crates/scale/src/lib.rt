// From f64 to fixed point. Every function is total, and states its result as an equation with a definition of specs/.
#![tactic(auto)]

pub mod scale;
