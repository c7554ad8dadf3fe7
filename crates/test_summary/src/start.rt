// The decoders and summaries that the cases start from. With tables of one value and no gains the
// level after a sample is its pilot sample, so the pilot alone decides between stereo and mono.
use crate::call::Both;
use decoder_record::pll_f32::StereoPllF32;
use decoder_record_q15::pll_q15::StereoPllQ15;
use summary::SummarizedF32;
use summary_counts::Counts;
use summary_q15::SummarizedQ15;
use summary_record::in_f32::SummaryF32;
use summary_record::in_q15::SummaryQ15;

pub(crate) fn decoder_f32(stereo: bool, enabled: bool) -> StereoPllF32 {
    StereoPllF32 {
        kp: 0.0,
        ki: 0.0,
        imax: 1.0,
        beta: 1.0,
        on: 1.0,
        off: 0.5,
        step0: 100,
        phase: 7,
        integ: 0.0,
        level: 0.25,
        stereo,
        enabled,
    }
}

// The level is 2^31 times the product of pilot sample and table; on is 2^60 and off 2^59, so that
// 32767 gives stereo, 12288 keeps and 0 gives mono. A kp of -1 is unfit.
pub(crate) fn decoder_q15(kp: i64, stereo: bool, enabled: bool) -> StereoPllQ15 {
    StereoPllQ15 {
        kp,
        ki: 0,
        imax: 0,
        beta: 2147483648,
        on: 1152921504606846976,
        off: 576460752303423488,
        step0: 100,
        phase: 7,
        integ: 0,
        level: 5,
        stereo,
        enabled,
    }
}

// Fresh summaries.
pub(crate) fn fresh(d: StereoPllF32, e: StereoPllQ15, period: u32) -> Both {
    Both {
        f: SummarizedF32 {
            answer: Ok(0),
            decoder: d,
            summary: SummaryF32::new(period),
        },
        q: SummarizedQ15 {
            answer: Ok(()),
            decoder: e,
            summary: SummaryQ15::new(period),
        },
    }
}

// Summaries that hold these.
pub(crate) fn held(d: StereoPllF32, e: StereoPllQ15, counts: Counts, m: f32, k: i16) -> Both {
    Both {
        f: SummarizedF32 {
            answer: Ok(0),
            decoder: d,
            summary: SummaryF32 {
                counts,
                magnitude: m,
            },
        },
        q: SummarizedQ15 {
            answer: Ok(()),
            decoder: e,
            summary: SummaryQ15 {
                counts,
                magnitude: k,
            },
        },
    }
}
