// A round of a rack whose decoders have slices of their own, over the format: definitions and laws. No code.
#![tactic(auto)]
