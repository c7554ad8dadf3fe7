// The count of the lines, and the decoders that the list's calls go to, a plain and a fast one of
// each format.
use crate::session_f32::PairF32;
use crate::session_q15::PairQ15;
use decoder_record::pll_f32::StereoPllF32;
use decoder_record_q15::pll_q15::StereoPllQ15;
use test_tally::tally::Tally;

#[derive(Clone, Copy)]
pub struct Desk {
    pub tally: Tally,
    pub float: PairF32,
    pub fixed: PairQ15,
}

fn none_f32() -> PairF32 {
    let d = StereoPllF32 {
        kp: 0.0,
        ki: 0.0,
        imax: 0.0,
        beta: 0.0,
        on: 0.0,
        off: 0.0,
        step0: 0,
        phase: 0,
        integ: 0.0,
        level: 0.0,
        stereo: false,
        enabled: false,
    };
    PairF32 {
        plain: d,
        fast: d,
        agree: false,
    }
}

fn none_q15() -> PairQ15 {
    let d = StereoPllQ15 {
        kp: 0,
        ki: 0,
        imax: 0,
        beta: 0,
        on: 0,
        off: 0,
        step0: 0,
        phase: 0,
        integ: 0,
        level: 0,
        stereo: false,
        enabled: false,
    };
    PairQ15 {
        plain: d,
        fast: d,
        agree: false,
    }
}

// Before the first line.
pub(crate) fn empty() -> Desk {
    Desk {
        tally: test_tally::tally::fresh(),
        float: none_f32(),
        fixed: none_q15(),
    }
}
