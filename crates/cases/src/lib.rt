// Document 01's worked cases, as one table (specs/) that is proved (proofs/). No code.
#![tactic(auto)]
