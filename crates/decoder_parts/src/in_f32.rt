// The parts of a sample's steps in f32 that take any numbers.
ghost use Rattle.std.specs.Prelude.{◌≡◌};
ghost use Rattle.decoder_parts.specs.Rules.{
  decide_f32,
  limited_f32,
  level_f32,
  accumulate_f32,
  error_f32,
  level_after_f32,
  stereo_after_f32,
  demodulated_f32,
};

use finite::finite::is_finite_f32;
use numbers::float::flush_denormal;

pub fn level_next(beta: f32, level: f32, q: f32) -> f32
    ensures { result ≡ level_f32 beta level q }
{
    flush_denormal(level + beta * (q - level))
}

pub fn decided(level: f32, on: f32, off: f32, was: bool) -> bool
    ensures { result ≡ decide_f32 level on off was }
{
    if level >= on {
        true
    } else if level < off {
        false
    } else {
        was
    }
}

pub fn accumulated(integ: f32, ki: f32, e: f32) -> f32
    ensures { result ≡ accumulate_f32 integ ki e }
{
    flush_denormal(integ + ki * e)
}

pub fn within(imax: f32, x: f32) -> f32
    ensures { result ≡ limited_f32 imax x }
{
    let y = if x > imax { imax } else { x };
    if y < -imax { -imax } else { y }
}

// The integrator after a sample, within its limit. A sum that is neither small nor beyond the limit
// is the integrator itself; by a jump, so that a loop's chain has no part of the flush and the limits.
pub fn integrated(imax: f32, integ: f32, ki: f32, e: f32) -> f32
    ensures { result ≡ limited_f32 imax (accumulate_f32 integ ki e) }
{
    let x = integ + ki * e;
    let small = (x < 1e-30) & (x > -1e-30);
    let beyond = (x > imax) | (x < -imax);
    if small | beyond {
        return within(imax, accumulated(integ, ki, e));
    }
    x
}

pub fn demodulated(on: bool, x: f32, s2: f32) -> f32
    ensures { result ≡ demodulated_f32 on x s2 }
{
    if on { x * s2 } else { 0.0 }
}

// The error, the level and the decision where a pilot sample may not be finite.
pub fn error_of(p: f32, c: f32) -> f32
    ensures { result ≡ error_f32 p c }
{
    if is_finite_f32(p) { p * c } else { 0.0 }
}

pub fn level_of(p: f32, s: f32, beta: f32, level: f32) -> f32
    ensures { result ≡ level_after_f32 p s beta level }
{
    if is_finite_f32(p) {
        level_next(beta, level, p * s)
    } else {
        level
    }
}

pub fn stereo_of(p: f32, level: f32, on: f32, off: f32, was: bool) -> bool
    ensures { result ≡ stereo_after_f32 p level on off was }
{
    if is_finite_f32(p) {
        decided(level, on, off, was)
    } else {
        was
    }
}
