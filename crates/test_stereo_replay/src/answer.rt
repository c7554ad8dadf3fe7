// What our functions answer, as a word.
use crate::line::Case;
use crate::{names, seeds};
use answers::answer::Refusal;
use encoder_record::encode::StereoEncode;
use encoder_record_rds::rds::StereoEncodeRds;
use oscillator::nco::Nco;
use test_words::words;

// A refusal in the place of an increment is 2^32 and its number.
fn refused(refusal: Refusal) -> u64 {
    4294967296 + refusal.number() as u64
}

// The answer where a block was turned back: no line has it.
const TURNED_BACK: u64 = 18446744073709551615;

fn increment_for(freq: f64, rate: f64) -> u64 {
    match oscillator::nco::increment_for(freq, rate) {
        Ok(inc) => words::word_u32(inc),
        Err(refusal) => refused(refusal),
    }
}

fn advance(phase: u32, inc: u32, n: u64) -> u64 {
    let o = Nco { phase, inc };
    let next = o.advance(n as usize);
    words::word_u32(next.phase)
}

fn encode_new(frequency: f64, main: f32, pilot: f32, rate: f64) -> u64 {
    match StereoEncode::new(frequency, main, pilot, rate) {
        Ok(e) => words::word_u32(e.nco.inc),
        Err(refusal) => refused(refusal),
    }
}

fn encode_rds_new(frequency: f64, main: f32, pilot: f32, rds: f32, rate: f64) -> u64 {
    match StereoEncodeRds::new(frequency, main, pilot, rds, rate) {
        Ok(e) => words::word_u32(e.enc.nco.inc),
        Err(refusal) => refused(refusal),
    }
}

// Two numbers of 32 bits in a word.
fn both(high: u32, low: u64) -> u64 {
    (high as u64) * 4294967296 + low % 4294967296
}

fn high(w: u64) -> u64 {
    w / 4294967296
}

// An encoder's record from its words.
fn encoder(phases: u64, levels: u64) -> StereoEncode {
    StereoEncode {
        nco: Nco {
            phase: words::u32_of(phases),
            inc: words::u32_of(high(phases)),
        },
        main: words::f32_of(levels),
        pilot: words::f32_of(high(levels)),
    }
}

// The number of the refusal, or 0.
fn number_in(a: Result<(), Refusal>) -> u32 {
    match a {
        Ok(()) => 0,
        Err(refusal) => refusal.number(),
    }
}

// The number of the refusal, or 0, and the level after it.
fn set_pilot(pilot: f32, to: f32) -> u64 {
    let mut e = StereoEncode {
        nco: Nco { phase: 1, inc: 2 },
        main: 0.5,
        pilot,
    };
    let a = e.set_pilot(to);
    both(number_in(a), words::word_f32(e.pilot))
}

fn set_rds(level: f32, to: f32) -> u64 {
    let mut e = StereoEncodeRds {
        enc: StereoEncode {
            nco: Nco { phase: 1, inc: 2 },
            main: 0.5,
            pilot: 0.1,
        },
        rds: level,
    };
    let a = e.set_rds(to);
    both(number_in(a), words::word_f32(e.rds))
}

fn at_f32(x: &[f32; 16], k: u64) -> u64 {
    words::word_f32(x[(k % 16) as usize])
}

fn at_q15(x: &[i16; 16], k: u64) -> u64 {
    words::word_i16(x[(k % 16) as usize])
}

// The word where a block was accepted.
fn accepted(a: Result<(), Refusal>, w: u64) -> u64 {
    if a.is_ok() { w } else { TURNED_BACK }
}

// Of a block of 16 samples: left at k below 16, right from there on.
fn either(k: u64, left: u64, right: u64) -> u64 {
    if k < 16 { left } else { right }
}

fn matrix_f32(seed: u64, k: u64) -> u64 {
    let sum = seeds::block_f32(seed);
    let difference = seeds::block_f32(seeds::second(seed));
    let mut left = [0.0f32; 16];
    let mut right = [0.0f32; 16];
    let a = matrix::matrix::matrix_f32(&sum, &difference, &mut left, &mut right);
    accepted(a, either(k, at_f32(&left, k), at_f32(&right, k)))
}

fn matrix_q15(seed: u64, k: u64) -> u64 {
    let sum = seeds::block_q15(seed);
    let difference = seeds::block_q15(seeds::second(seed));
    let mut left = [0i16; 16];
    let mut right = [0i16; 16];
    let a = matrix::matrix::matrix_q15(&sum, &difference, &mut left, &mut right);
    accepted(a, either(k, at_q15(&left, k), at_q15(&right, k)))
}

// Of a block of 16 samples: the output at k below 16, then the next phase.
fn encode(cos: &[f32], seed: u64, k: u64, e: StereoEncode) -> u64 {
    let left = seeds::block_f32(seed);
    let right = seeds::block_f32(seeds::second(seed));
    let mut output = [0.0f32; 16];
    let reply = encoder::stereo::encode(e, cos, &left, &right, &mut output);
    let a = reply.answer;
    accepted(
        a,
        either(
            k,
            at_f32(&output, k),
            words::word_u32(reply.encoder.nco.phase),
        ),
    )
}

fn encode_rds(cos: &[f32], seed: u64, k: u64, e: StereoEncodeRds) -> u64 {
    let left = seeds::block_f32(seed);
    let right = seeds::block_f32(seeds::second(seed));
    let rds = seeds::block_f32(seeds::third(seed));
    let mut output = [0.0f32; 16];
    let reply = encoder_rds::rds::encode(e, cos, &left, &right, &rds, &mut output);
    let a = reply.answer;
    accepted(
        a,
        either(
            k,
            at_f32(&output, k),
            words::word_u32(reply.encoder.enc.nco.phase),
        ),
    )
}

// Lookup, correction and oscillator.
fn of_phase(cos: &[f32], cos_q15: &[i16], x: Case) -> u64 {
    let function = x.function;
    match function {
        names::COS_F32 => words::word_f32(lookup::lookup::cos_f32(cos, words::u32_of(x.a))),
        names::PAIR_C => {
            let pair = lookup::lookup::interp_f32_pair(cos, words::u32_of(x.a));
            words::word_f32(pair.c)
        }
        names::PAIR_S => {
            let pair = lookup::lookup::interp_f32_pair(cos, words::u32_of(x.a));
            words::word_f32(pair.s)
        }
        names::COS_Q15 => words::word_i16(lookup_q15::in_q15::cos_q15(cos_q15, words::u32_of(x.a))),
        names::INTERP_Q15 => {
            words::word_i32(lookup_q15::in_q15::interp_q15(cos_q15, words::u32_of(x.a)))
        }
        names::CORRECTION_PLAIN => {
            words::word_u32(phase::correction::correction_plain(words::f32_of(x.a)))
        }
        names::CORRECTION_FAST => {
            words::word_u32(phase::correction::correction_fast(words::f32_of(x.a)).step)
        }
        names::INCREMENT_FOR => increment_for(words::f64_of(x.a), words::f64_of(x.b)),
        _ => advance(words::u32_of(x.a), words::u32_of(x.b), x.c),
    }
}

// Matrix and encoders.
fn of_stereo(cos: &[f32], x: Case) -> u64 {
    let function = x.function;
    match function {
        names::ENCODE_NEW => encode_new(
            words::f64_of(x.a),
            words::f32_of(x.b),
            words::f32_of(x.c),
            words::f64_of(x.e),
        ),
        names::ENCODE_RDS_NEW => encode_rds_new(
            words::f64_of(x.a),
            words::f32_of(x.b),
            words::f32_of(x.c),
            words::f32_of(x.d),
            words::f64_of(x.e),
        ),
        names::SET_PILOT => set_pilot(words::f32_of(x.a), words::f32_of(x.b)),
        names::SET_RDS => set_rds(words::f32_of(x.a), words::f32_of(x.b)),
        names::MATRIX_F32 => matrix_f32(x.a, x.b),
        names::MATRIX_Q15 => matrix_q15(x.a, x.b),
        names::ENCODE => encode(cos, x.a, x.b, encoder(x.c, x.d)),
        _ => {
            let enc = encoder(x.c, x.d);
            let e = StereoEncodeRds {
                enc,
                rds: words::f32_of(x.e),
            };
            encode_rds(cos, x.a, x.b, e)
        }
    }
}

pub(crate) fn answer(cos: &[f32], cos_q15: &[i16], x: Case) -> u64 {
    if x.function <= names::ADVANCE {
        of_phase(cos, cos_q15, x)
    } else {
        of_stereo(cos, x)
    }
}
