// What the steps of a sample have in common, plain or fast: the parts that take any numbers.
#![tactic(auto)]

pub mod advance;
pub mod in_f32;
