// A summary's record in f32.
ghost use Rattle.std.specs.Prelude.{◌≡◌};
ghost use Rattle.decoder.specs.F32.{f32};
ghost use Rattle.summary_record.specs.Record.{fresh_summary, larger_of, summary_fit};
ghost use Rattle.summary_record.specs.F32.{unsigned_f32, summary_of_f32};

use summary_counts::Counts;

// A summary's record.
#[derive(Clone, Copy)]
pub struct SummaryF32 {
    pub counts: Counts,
    pub magnitude: f32,
}

impl SummaryF32 {
    // A fresh summary.
    pub fn new(period: u32) -> SummaryF32
        ensures { summary_of_f32 result ≡ fresh_summary f32 period }
    {
        SummaryF32 {
            counts: summary_counts::fresh(period),
            magnitude: 0.0,
        }
    }
}

// No NaN, and the sign bit not set.
fn is_unsigned(m: f32) -> bool
    ensures { result ≡ unsigned_f32 m }
{
    if m != m {
        return false;
    }
    f32::to_bits(m) < 2147483648
}

// Whether a call takes the summary.
pub fn is_fit(s: SummaryF32) -> bool
    ensures { result ≡ summary_fit f32 unsigned_f32 (summary_of_f32 s) }
{
    let empty = summary_counts::held(s.counts) == 0;
    let rest = is_unsigned(s.magnitude) & !(empty & (s.magnitude > 0.0));
    summary_counts::is_fit(s.counts) & rest
}

// The magnitude m with the difference y.
pub fn larger(m: f32, y: f32) -> f32
    ensures { result ≡ larger_of f32 m y }
{
    let a = if m < y { y } else { m };
    if a < -y { -y } else { a }
}
