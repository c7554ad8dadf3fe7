// The stereo multiplex encoder's record: construction, set calls and read-outs.
ghost use Rattle.std.specs.Prelude.{◌≡◌};
ghost use Rattle.answers.specs.Answer.{says_made, says_changed};
ghost use Rattle.encoder_record.specs.Encode.{good_level, new_of, set_pilot_of, encode_at};

use answers::answer::Refusal;
use finite::finite::is_positive_f64;
use oscillator::nco::{Nco, increment_of};

// The pilot's oscillator, the gain of the sum and difference signals, and the pilot's amplitude.
#[repr(C)]
#[derive(Clone, Copy)]
pub struct StereoEncode {
    pub nco: Nco,
    pub main: f32,
    pub pilot: f32,
}

// Whether a pilot amplitude or an RDS level is allowed.
pub fn good_level(x: f32) -> bool
    ensures { result ≡ good_level x }
{
    if x >= 0.0 { x <= 0.2 } else { false }
}

impl StereoEncode {
    // The causes 1, 12, 13, 14 and 15, in order.
    pub fn new(frequency: f64, main: f32, pilot: f32, rate: f64) -> Result<StereoEncode, Refusal>
        ensures { says_made result ≡ new_of frequency main pilot rate }
    {
        if !is_positive_f64(rate) {
            return Err(Refusal::Rate);
        }
        if !((frequency >= 18000.0) & (frequency <= 20000.0)) {
            return Err(Refusal::EncoderPilot);
        }
        if !((main >= 0.0) & (main <= 1.0)) {
            return Err(Refusal::MainGain);
        }
        if !good_level(pilot) {
            return Err(Refusal::PilotAmplitude);
        }
        if !(rate >= 120000.0) {
            return Err(Refusal::EncoderRate);
        }
        let inc = increment_of(frequency / rate);
        Ok(StereoEncode {
            nco: Nco { phase: 0, inc },
            main,
            pilot,
        })
    }

    pub fn set_pilot(&mut self, pilot: f32) -> Result<(), Refusal>
        ensures { says_changed result self.new ≡ set_pilot_of self.old pilot }
    {
        // tested first: a refused call leaves the encoder as it was
        if !good_level(pilot) {
            return Err(Refusal::PilotAmplitude);
        }
        self.pilot = pilot;
        Ok(())
    }

    pub fn pilot(self) -> f32
        ensures { result ≡ self.pilot }
    {
        self.pilot
    }

    pub fn main(self) -> f32
        ensures { result ≡ self.main }
    {
        self.main
    }

    pub fn phase(self) -> u32
        ensures { result ≡ self.nco.phase }
    {
        self.nco.phase
    }

    pub fn set_phase(self, p: u32) -> StereoEncode
        ensures { result ≡ encode_at self p }
    {
        let inc = self.nco.inc;
        StereoEncode {
            nco: Nco { phase: p, inc },
            main: self.main,
            pilot: self.pilot,
        }
    }

    pub fn increment(self) -> u32
        ensures { result ≡ self.nco.inc }
    {
        self.nco.inc
    }

    pub fn reset(self) -> StereoEncode
        ensures { result ≡ encode_at self 0 }
    {
        self.set_phase(0)
    }
}
