// The encoder and the verdict under C names, for a program in Rust or C to call.
// Records go in and out by value, a slice is a pointer and then a length, and answers are numbers,
// as specs/Coded.antt defines them.
#![tactic(auto)]

ghost use Rattle.std.specs.Prelude.{◌≡◌};
ghost use Rattle.answers.specs.Coded.{switch_of};
ghost use Rattle.verdict.specs.Verdict.{on_air_of};

use answers::switch::switch_of;

mod encode;

// 1 where the pilot may go on air, else 0.
#[unsafe(no_mangle)]
pub extern "C" fn pescrondilu_on_air(frequency: f64, amplitude: f32) -> u32
    ensures { result ≡ switch_of (on_air_of frequency amplitude) }
{
    switch_of(verdict::on_air(frequency, amplitude))
}
