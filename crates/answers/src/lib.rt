// What all calls share: their answers, the rule of the lengths, and C's switches.
#![tactic(auto)]

pub mod answer;
pub mod switch;
