// The racks and samples that the cases start from. With tables of one value and no gains the level after a
// sample is its pilot sample, and the phase tells how many samples a decoder worked.
use decoder_record::pll_f32::StereoPllF32;
use decoder_record_q15::pll_q15::StereoPllQ15;
use rack_waiting::Waiting;

// A character of a text, or one that stands for nothing.
fn letter(text: &[u8], at: usize) -> u8 {
    if at < text.len() { text[at] } else { b' ' }
}

// A digit, or 0.
fn digit(c: u8) -> usize {
    if c < b'0' {
        return 0;
    }
    if c > b'9' {
        return 0;
    }
    (c - b'0') as usize
}

// What waits: four digits for each decoder, and nothing past the text.
pub(crate) fn waiting(text: &[u8]) -> [Waiting; 8] {
    let none = Waiting {
        mpx: 0,
        pilot: 0,
        sum: 0,
        difference: 0,
    };
    let mut all = [none; 8];
    for k in 0..8 {
        let w = Waiting {
            mpx: digit(letter(text, 4 * k)),
            pilot: digit(letter(text, 4 * k + 1)),
            sum: digit(letter(text, 4 * k + 2)),
            difference: digit(letter(text, 4 * k + 3)),
        };
        all[k] = w;
    }
    all
}

// A gain by its letter. At a pilot of 1 it is f, by which the correction goes, and at a pilot of 0 f is 0, but
// for an infinite gain, where it is a NaN. f is wide for w, v and i, and quick for q and p.
fn gain(mark: u8) -> f32 {
    match mark {
        b'w' => 524288.0,
        b'v' => -524288.0625,
        b'i' => 1.0 / 0.0,
        b'q' => -524288.0,
        b'p' => 524287.96875,
        _ => 0.0,
    }
}

fn decoder_f32(phase: u32, mark: u8) -> StereoPllF32 {
    StereoPllF32 {
        kp: gain(mark),
        ki: 0.0,
        imax: 1.0,
        beta: 1.0,
        on: 1.0,
        off: 0.5,
        step0: 1,
        phase,
        integ: 0.0,
        level: 0.25,
        stereo: false,
        enabled: true,
    }
}

// Decoders with different phases, and with the gains of the text's letters.
pub(crate) fn rack_f32(marks: &[u8]) -> [StereoPllF32; 8] {
    let first = decoder_f32(0, b' ');
    let mut all = [first; 8];
    let mut phase = 0u32;
    for k in 0..8 {
        let d = decoder_f32(phase, letter(marks, k));
        all[k] = d;
        phase = std::num::wrapping_add_u32(phase, 1000);
    }
    all
}

// The level is 2^31 times the product of pilot sample and table; on is 2^60 and off 2^59, so that 32767
// gives stereo and 0 mono. A kp of -1 is unfit.
fn decoder_q15(phase: u32, mark: u8) -> StereoPllQ15 {
    let kp = if mark == b'u' { -1 } else { 0 };
    StereoPllQ15 {
        kp,
        ki: 0,
        imax: 0,
        beta: 2147483648,
        on: 1152921504606846976,
        off: 576460752303423488,
        step0: 1,
        phase,
        integ: 0,
        level: 1099511627776,
        stereo: false,
        enabled: true,
    }
}

// The decoders with a u at their place of the text are unfit.
pub(crate) fn rack_q15(marks: &[u8]) -> [StereoPllQ15; 8] {
    let first = decoder_q15(0, b' ');
    let mut all = [first; 8];
    let mut phase = 0u32;
    for k in 0..8 {
        let d = decoder_q15(phase, letter(marks, k));
        all[k] = d;
        phase = std::num::wrapping_add_u32(phase, 1000);
    }
    all
}

// The samples by their places: mpx 1, 2, 3 and so on, and a pilot that is high at every other place.
pub(crate) fn samples_f32(mpx: &mut [f32; 24], pilot: &mut [f32; 24]) {
    let mut x = 1.0f32;
    let mut p = 1.0f32;
    for i in 0..24 {
        mpx[i] = x;
        pilot[i] = p;
        x = x + 1.0;
        p = 1.0 - p;
    }
}

pub(crate) fn samples_q15(mpx: &mut [i16; 24], pilot: &mut [i16; 24]) {
    let mut high = true;
    for i in 0..24 {
        mpx[i] = test_words::words::i16_of(std::num::wrapping_add_u64(i as u64, 1));
        pilot[i] = if high { 32767 } else { 0 };
        high = !high;
    }
}
