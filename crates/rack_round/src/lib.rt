// A round of a rack of decoders, over the format: definitions and laws. No code.
#![tactic(auto)]
