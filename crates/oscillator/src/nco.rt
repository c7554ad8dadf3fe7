// The numerically controlled oscillator of kernels/mix.rs.
ghost use Rattle.std.specs.Prelude.{◌≡◌};
ghost use Rattle.answers.specs.Answer.{says_made, says_changed};
ghost use Rattle.oscillator.specs.Oscillator.{
  increment_of,
  increment_for,
  fresh,
  new_of,
  set_frequency_of,
  phase_set,
  advance_of,
};

use answers::answer::Refusal;

// The phase before the next sample, and what each sample adds to it.
#[repr(C)]
#[derive(Clone, Copy)]
pub struct Nco {
    pub phase: u32,
    pub inc: u32,
}

// The increment of a finite number of cycles a sample.
pub fn increment_of(cycles: f64) -> u32
    ensures { result ≡ increment_of cycles }
{
    let frac = cycles - floats::bits::floor_f64(cycles);
    let scaled = floats::bits::half_even_f64(frac * 4294967296.0);
    numbers::fixed::low32(floats::bits::f64_to_i64(scaled))
}

// The increment of a frequency at a rate.
pub fn increment_for(freq: f64, rate: f64) -> Result<u32, Refusal>
    ensures { says_made result ≡ increment_for freq rate }
{
    if !finite::finite::is_positive_f64(rate) {
        return Err(Refusal::Rate);
    }
    let cycles = freq / rate;
    if !finite::finite::is_finite_f64(cycles) {
        return Err(Refusal::Cycles);
    }
    Ok(increment_of(cycles))
}

impl Nco {
    pub fn new(freq: f64, rate: f64) -> Result<Nco, Refusal>
        ensures { says_made result ≡ new_of freq rate }
    {
        let inc = increment_for(freq, rate)?;
        Ok(Nco { phase: 0, inc })
    }

    pub fn from_increment(inc: u32) -> Nco
        ensures { result ≡ fresh inc }
    {
        Nco { phase: 0, inc }
    }

    // A refused call leaves the oscillator as it was.
    pub fn set_frequency(&mut self, freq: f64, rate: f64) -> Result<(), Refusal>
        ensures { says_changed result self.new ≡ set_frequency_of self.old freq rate }
    {
        self.inc = increment_for(freq, rate)?;
        Ok(())
    }

    pub fn phase(self) -> u32
        ensures { result ≡ self.phase }
    {
        self.phase
    }

    pub fn set_phase(self, p: u32) -> Nco
        ensures { result ≡ phase_set self p }
    {
        Nco {
            phase: p,
            inc: self.inc,
        }
    }

    pub fn increment(self) -> u32
        ensures { result ≡ self.inc }
    {
        self.inc
    }

    pub fn reset(self) -> Nco
        ensures { result ≡ phase_set self 0 }
    {
        Nco {
            phase: 0,
            inc: self.inc,
        }
    }

    pub fn advance(self, n: usize) -> Nco
        ensures { result ≡ advance_of self n }
    {
        let steps = (n % 4294967296) as u64;
        let added = (steps * (self.inc as u64) % 4294967296) as u32;
        Nco {
            phase: std::num::wrapping_add_u32(self.phase, added),
            inc: self.inc,
        }
    }
}
