// A summary in f32.
ghost use Rattle.std.specs.Prelude.{◌≡◌};
ghost use Rattle.decoder.specs.F32.{f32};
ghost use Rattle.counted.specs.Counted.{number_in};
ghost use Rattle.summary_call.specs.Summary.{summary_of};
ghost use Rattle.summary.specs.Wide.{summary_count};
ghost use Rattle.summary_record.specs.Record.{fresh_summary};
ghost use Rattle.summary_record.specs.F32.{unsigned_f32, summary_of_f32};
ghost use Rattle.c_decoder.specs.Coded.{decoder_of_f32, taken_of};
ghost use Rattle.c_summary.specs.Coded.{record_f32, taken_summary, given_summary, coded_summary};

use answers::answer::{Code, code_of};
use answers::switch::{is_on, switch_of};
use c_decoder::in_f32::DecoderF32;
use counted::{answer_of, wide_of};
use decoder_record::pll_f32::StereoPllF32;
use summary_counts::Counts;
use summary_record::in_f32::SummaryF32;

// The record in C.
#[repr(C)]
#[derive(Clone, Copy)]
pub struct SummaryRecordF32 {
    pub period: u32,
    pub stereo: u32,
    pub mono: u32,
    pub changes: u32,
    pub magnitude: f32,
    pub before: u32,
}

// What a block answers, how many of its corrections took the wide way, 0 where it was turned back, and
// the decoder and the summary after it.
#[repr(C)]
#[derive(Clone, Copy)]
pub struct SummaryReplyF32 {
    pub answer: Code,
    pub wide: usize,
    pub decoder: DecoderF32,
    pub summary: SummaryRecordF32,
}

// The summary from C's record.
impl From<SummaryRecordF32> for SummaryF32 {
    ghost from_gives = { λ s r. summary_of_f32 r ≡ taken_summary (record_f32 s) };

    fn from(s: SummaryRecordF32) -> SummaryF32 {
        SummaryF32 {
            counts: Counts {
                period: s.period,
                stereo: s.stereo,
                mono: s.mono,
                changes: s.changes,
                before: is_on(s.before),
            },
            magnitude: s.magnitude,
        }
    }
}

// And back.
impl From<SummaryF32> for SummaryRecordF32 {
    ghost from_gives = { λ s r. record_f32 r ≡ given_summary (summary_of_f32 s) };

    fn from(s: SummaryF32) -> SummaryRecordF32 {
        let c = s.counts;
        SummaryRecordF32 {
            period: c.period,
            stereo: c.stereo,
            mono: c.mono,
            changes: c.changes,
            magnitude: s.magnitude,
            before: switch_of(c.before),
        }
    }
}

#[unsafe(no_mangle)]
pub extern "C" fn pescrondilu_f32_summary_new(period: u32) -> SummaryRecordF32
    ensures { record_f32 result ≡ given_summary (fresh_summary f32 period) }
{
    SummaryRecordF32::from(SummaryF32::new(period))
}

// A block with its summaries, the fast way.
#[unsafe(no_mangle)]
pub extern "C" fn pescrondilu_f32_summary_block(
    d: DecoderF32,
    s: SummaryRecordF32,
    table: &[f32],
    mpx: &[f32],
    pilot: &[f32],
    sum: &mut [f32],
    difference: &mut [f32],
    stereo: &mut [u32],
    mono: &mut [u32],
    changes: &mut [u32],
    magnitude: &mut [f32],
) -> SummaryReplyF32
    ensures leaves { record {
      answer = result.answer;
      sum = sum.new;
      difference = difference.new;
      columns = record {
        stereo = stereo.new;
        mono = mono.new;
        changes = changes.new;
        magnitude = magnitude.new;
      };
      decoder = decoder_of_f32 result.decoder;
      summary = record_f32 result.summary;
    }
        ≡ coded_summary (summary_of f32 unsigned_f32 (taken_of (decoder_of_f32 d)) (taken_summary (record_f32 s))
        table.now mpx.now pilot.now sum.old difference.old
        (record {
          stereo = stereo.old;
          mono = mono.old;
          changes = changes.old;
          magnitude = magnitude.old;
        })) }
    ensures wide { result.wide ≡ number_in (summary_count (taken_of (decoder_of_f32 d)) (taken_summary (record_f32 s))
        table.now mpx.now pilot.now sum.old difference.old
        (record {
          stereo = stereo.old;
          mono = mono.old;
          changes = changes.old;
          magnitude = magnitude.old;
        })) }
{
    let decoder = StereoPllF32::from(d);
    let summary = SummaryF32::from(s);
    let reply = summary::block(
        decoder, summary, table, mpx, pilot, sum, difference, stereo, mono, changes, magnitude,
    );
    let said = reply.answer;
    let next = reply.decoder;
    let held = reply.summary;
    SummaryReplyF32 {
        answer: code_of(answer_of(said)),
        wide: wide_of(said),
        decoder: DecoderF32::from(next),
        summary: SummaryRecordF32::from(held),
    }
}
