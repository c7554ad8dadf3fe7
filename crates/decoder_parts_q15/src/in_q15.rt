// The parts of a sample's steps in Q15 that take any numbers.
ghost use Rattle.std.specs.Prelude.{◌≡◌};
ghost use Rattle.decoder_parts.specs.Rules.{decide_q15, selected_q15};

pub fn decided(level: i64, on: i64, off: i64, was: bool) -> bool
    ensures { result ≡ decide_q15 level on off was }
{
    if level >= on {
        true
    } else if level < off {
        false
    } else {
        was
    }
}

// The difference output: the demodulated sample, or silence.
pub fn selected(on: bool, difference: i16) -> i16
    ensures { result ≡ selected_q15 on difference }
{
    if on { difference } else { 0 }
}
