// Lists of calls: definitions (specs/) and laws (proofs/). No code.
#![tactic(auto)]
