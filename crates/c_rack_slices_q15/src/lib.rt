// A round of a rack in Q15, whose decoders have slices of their own, under C names.
#![tactic(auto)]

mod in_q15;
