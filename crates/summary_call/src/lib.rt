// The call with a summary beside the pairs, over the format: definitions and laws. No code.
#![tactic(auto)]
