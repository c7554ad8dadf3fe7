// A summary in Q15.
ghost use Rattle.std.specs.Prelude.{◌≡◌};
ghost use Rattle.decoder_q15.specs.Q15.{q15};
ghost use Rattle.summary_call.specs.Summary.{summary_of};
ghost use Rattle.summary_record.specs.Record.{fresh_summary};
ghost use Rattle.summary_record.specs.Q15.{unsigned_q15, summary_of_q15};
ghost use Rattle.c_decoder.specs.Coded.{taken_of};
ghost use Rattle.c_decoder_q15.specs.CodedQ15.{decoder_of_q15};
ghost use Rattle.c_summary.specs.Coded.{taken_summary, given_summary, coded_summary};
ghost use Rattle.c_summary_q15.specs.CodedQ15.{record_q15};

use answers::answer::{Code, code_of};
use answers::switch::{is_on, switch_of};
use c_decoder_q15::in_q15::DecoderQ15;
use decoder_record_q15::pll_q15::StereoPllQ15;
use summary_counts::Counts;
use summary_record::in_q15::SummaryQ15;

// The record in C.
#[repr(C)]
#[derive(Clone, Copy)]
pub struct SummaryRecordQ15 {
    pub period: u32,
    pub stereo: u32,
    pub mono: u32,
    pub changes: u32,
    pub magnitude: i16,
    pub before: u32,
}

// What a block answers, and the decoder and the summary after it.
#[repr(C)]
#[derive(Clone, Copy)]
pub struct SummaryReplyQ15 {
    pub answer: Code,
    pub decoder: DecoderQ15,
    pub summary: SummaryRecordQ15,
}

// The summary from C's record.
impl From<SummaryRecordQ15> for SummaryQ15 {
    ghost from_gives = { λ s r. summary_of_q15 r ≡ taken_summary (record_q15 s) };

    fn from(s: SummaryRecordQ15) -> SummaryQ15 {
        SummaryQ15 {
            counts: Counts {
                period: s.period,
                stereo: s.stereo,
                mono: s.mono,
                changes: s.changes,
                before: is_on(s.before),
            },
            magnitude: s.magnitude,
        }
    }
}

// And back.
impl From<SummaryQ15> for SummaryRecordQ15 {
    ghost from_gives = { λ s r. record_q15 r ≡ given_summary (summary_of_q15 s) };

    fn from(s: SummaryQ15) -> SummaryRecordQ15 {
        let c = s.counts;
        SummaryRecordQ15 {
            period: c.period,
            stereo: c.stereo,
            mono: c.mono,
            changes: c.changes,
            magnitude: s.magnitude,
            before: switch_of(c.before),
        }
    }
}

#[unsafe(no_mangle)]
pub extern "C" fn pescrondilu_q15_summary_new(period: u32) -> SummaryRecordQ15
    ensures { record_q15 result ≡ given_summary (fresh_summary q15 period) }
{
    SummaryRecordQ15::from(SummaryQ15::new(period))
}

// A block with its summaries, the fast way.
#[unsafe(no_mangle)]
pub extern "C" fn pescrondilu_q15_summary_block(
    d: DecoderQ15,
    s: SummaryRecordQ15,
    table: &[i16],
    mpx: &[i16],
    pilot: &[i16],
    sum: &mut [i16],
    difference: &mut [i16],
    stereo: &mut [u32],
    mono: &mut [u32],
    changes: &mut [u32],
    magnitude: &mut [i16],
) -> SummaryReplyQ15
    ensures { record {
      answer = result.answer;
      sum = sum.new;
      difference = difference.new;
      columns = record {
        stereo = stereo.new;
        mono = mono.new;
        changes = changes.new;
        magnitude = magnitude.new;
      };
      decoder = decoder_of_q15 result.decoder;
      summary = record_q15 result.summary;
    }
        ≡ coded_summary (summary_of q15 unsigned_q15 (taken_of (decoder_of_q15 d)) (taken_summary (record_q15 s))
        table.now mpx.now pilot.now sum.old difference.old
        (record {
          stereo = stereo.old;
          mono = mono.old;
          changes = changes.old;
          magnitude = magnitude.old;
        })) }
{
    let decoder = StereoPllQ15::from(d);
    let summary = SummaryQ15::from(s);
    let reply = summary_q15::block(
        decoder, summary, table, mpx, pilot, sum, difference, stereo, mono, changes, magnitude,
    );
    let said = reply.answer;
    let next = reply.decoder;
    let held = reply.summary;
    SummaryReplyQ15 {
        answer: code_of(said),
        decoder: DecoderQ15::from(next),
        summary: SummaryRecordQ15::from(held),
    }
}
