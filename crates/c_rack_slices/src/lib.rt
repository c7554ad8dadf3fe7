// A round whose decoders have slices of their own, under C names, for a program in Rust or C to call. The
// records are those of c_rack, and go in and out by value; answers are numbers, as specs/Coded.antt defines
// them.
#![tactic(auto)]

mod in_f32;
