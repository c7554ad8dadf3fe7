// The oscillator.
ghost use Rattle.std.specs.Prelude.{◌≡◌};
ghost use Rattle.oscillator.specs.Oscillator.{increment_for, fresh, new_of, set_frequency_of, phase_set, advance_of};
ghost use Rattle.answers.specs.Coded.{coded_new, coded_set};
ghost use Rattle.c_oscillator.specs.CodedNco.{no_nco};

use answers::answer::code_of;
use oscillator::nco::Nco;

// 0 and the increment, or 100 and the cause's number, and 0.
#[repr(C)]
#[derive(Clone, Copy)]
pub struct CodedIncrement {
    pub code: u32,
    pub increment: u32,
}

// 0, or 100 and the cause's number; and the oscillator.
#[repr(C)]
#[derive(Clone, Copy)]
pub struct CodedNco {
    pub code: u32,
    pub nco: Nco,
}

#[unsafe(no_mangle)]
pub extern "C" fn pescrondilu_nco_increment_for(freq: f64, rate: f64) -> CodedIncrement
    ensures { record { code = result.code; value = result.increment } ≡ coded_new 0 (increment_for freq rate) }
{
    match oscillator::nco::increment_for(freq, rate) {
        Ok(increment) => CodedIncrement { code: 0, increment },
        Err(refusal) => CodedIncrement {
            code: 100 + refusal.number(),
            increment: 0,
        },
    }
}

#[unsafe(no_mangle)]
pub extern "C" fn pescrondilu_nco_new(freq: f64, rate: f64) -> CodedNco
    ensures { record { code = result.code; value = result.nco } ≡ coded_new no_nco (new_of freq rate) }
{
    match Nco::new(freq, rate) {
        Ok(nco) => CodedNco { code: 0, nco },
        Err(refusal) => CodedNco {
            code: 100 + refusal.number(),
            nco: Nco { phase: 0, inc: 0 },
        },
    }
}

#[unsafe(no_mangle)]
pub extern "C" fn pescrondilu_nco_from_increment(inc: u32) -> Nco
    ensures { result ≡ fresh inc }
{
    Nco::from_increment(inc)
}

#[unsafe(no_mangle)]
pub extern "C" fn pescrondilu_nco_set_frequency(o: Nco, freq: f64, rate: f64) -> CodedNco
    ensures { record { code = result.code; value = result.nco } ≡ coded_set (set_frequency_of o freq rate) }
{
    let mut nco = o;
    let code = code_of(nco.set_frequency(freq, rate)).code;
    CodedNco { code, nco }
}

#[unsafe(no_mangle)]
pub extern "C" fn pescrondilu_nco_set_phase(o: Nco, p: u32) -> Nco
    ensures { result ≡ phase_set o p }
{
    o.set_phase(p)
}

#[unsafe(no_mangle)]
pub extern "C" fn pescrondilu_nco_advance(o: Nco, n: usize) -> Nco
    ensures { result ≡ advance_of o n }
{
    o.advance(n)
}

#[unsafe(no_mangle)]
pub extern "C" fn pescrondilu_nco_reset(o: Nco) -> Nco
    ensures { result ≡ phase_set o 0 }
{
    o.reset()
}
