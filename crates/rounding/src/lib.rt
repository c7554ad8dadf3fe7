// Definitions (specs/) and laws (proofs/) alone: what the numbers and the layers above cite.
#![tactic(auto)]
