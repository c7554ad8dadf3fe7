// The phase after a sample, the same in both formats.
ghost use Rattle.std.specs.Prelude.{◌≡◌};
ghost use Rattle.decoder_parts.specs.Rules.{phase_after};

pub fn phase_after(phase: u32, step0: u32, correction: u32) -> u32
    ensures { result ≡ phase_after phase step0 correction }
{
    std::num::wrapping_add_u32(std::num::wrapping_add_u32(phase, step0), correction)
}
