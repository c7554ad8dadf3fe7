// The f32 decoder and the scan of the pilot under C names, for a program in Rust or C to call. A decoder's
// record goes in and out by value, a slice is a pointer and then a length, and answers are numbers,
// as specs/Coded.antt defines them.
#![tactic(auto)]

pub mod in_f32;
pub mod shared;
