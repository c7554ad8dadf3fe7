// Floats by their exact values: floor, half-even, conversions. Every function is
// total, and states its result as an equation with a definition of specs/.
#![tactic(auto)]

pub mod bits;
