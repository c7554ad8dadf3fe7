// A decoder's two thresholds: laws (proofs/) that on is not below off, in both formats. No code.
#![tactic(auto)]
