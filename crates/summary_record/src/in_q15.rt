// A summary's record in Q15.
ghost use Rattle.std.specs.Prelude.{◌≡◌};
ghost use Rattle.decoder_q15.specs.Q15.{q15};
ghost use Rattle.summary_record.specs.Record.{fresh_summary, summary_fit};
ghost use Rattle.summary_record.specs.Q15.{unsigned_q15, larger_q15, summary_of_q15};

use summary_counts::Counts;

// A summary's record. No difference is -32768, so that a magnitude is a sample.
#[derive(Clone, Copy)]
pub struct SummaryQ15 {
    pub counts: Counts,
    pub magnitude: i16,
}

impl SummaryQ15 {
    // A fresh summary.
    pub fn new(period: u32) -> SummaryQ15
        ensures { summary_of_q15 result ≡ fresh_summary q15 period }
    {
        SummaryQ15 {
            counts: summary_counts::fresh(period),
            magnitude: 0,
        }
    }
}

// Whether a call takes the summary.
pub fn is_fit(s: SummaryQ15) -> bool
    ensures { result ≡ summary_fit q15 unsigned_q15 (summary_of_q15 s) }
{
    let empty = summary_counts::held(s.counts) == 0;
    let rest = (s.magnitude >= 0) & !(empty & (s.magnitude > 0));
    summary_counts::is_fit(s.counts) & rest
}

// The magnitude m with the difference y. -32768 is no difference, and its negative would pass an i16.
pub fn larger(m: i16, y: i16) -> i16
    ensures { result ≡ larger_q15 m y }
{
    if y < -32767 {
        return 32767;
    }
    let a = if m < y { y } else { m };
    if a < -y { -y } else { a }
}
