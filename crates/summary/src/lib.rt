// A summary beside the pairs in f32: the fast block's samples, each with its part of the summary.
#![tactic(auto)]

ghost use Rattle.std.specs.Prelude.{◌≡◌, true, length};
ghost use Rattle.phase.specs.Correction.{is_wide};
ghost use Rattle.answers.specs.Answer.{entries};
ghost use Rattle.counted.specs.Counted.{count, said_in, count_in};
ghost use Rattle.decoder.specs.F32.{f32};
ghost use Rattle.decoder_record.specs.Records.{pll_of_f32};
ghost use Rattle.decoder_fast.specs.Wide.{wide_up_to};
ghost use Rattle.summary_counts.specs.Counts.{ending_of};
ghost use Rattle.summary_call.specs.Summary.{summary_run, summary_of};
ghost use Rattle.summary.specs.Wide.{summary_count};
ghost use Rattle.summary_record.specs.Record.{summary_fit};
ghost use Rattle.summary_record.specs.F32.{unsigned_f32, summary_of_f32};

use answers::answer::{ENTRIES, Refusal};
use decoder::lengths::block_lengths;
use decoder_fast::checked::step_checked;
use decoder_record::pll_f32::StereoPllF32;
use summary_counts::{counted, is_full, summary_answer};
use summary_record::in_f32::{SummaryF32, is_fit, larger};

// A decoder and a summary after a block, and the answer.
#[derive(Clone, Copy)]
pub struct SummarizedF32 {
    pub answer: Result<usize, Refusal>,
    pub decoder: StereoPllF32,
    pub summary: SummaryF32,
}

// The table with its length written out, so that the compiler leaves the test out of each lookup.
fn full_table(table: &[f32]) -> &[f32]
    requires { length table.now ≡ entries }
    ensures { result.now ≡ table.now }
{
    &table[..ENTRIES]
}

// The samples in order.
fn run(
    d: StereoPllF32,
    s: SummaryF32,
    table: &[f32],
    mpx: &[f32],
    pilot: &[f32],
    sum: &mut [f32],
    difference: &mut [f32],
    stereos: &mut [u32],
    monos: &mut [u32],
    changes: &mut [u32],
    magnitudes: &mut [f32],
) -> SummarizedF32
    requires lengths { (length pilot.now ≡ length mpx.now)
        × (length sum.old ≡ length mpx.now)
        × (length difference.old ≡ length mpx.now) }
    requires columns { (length stereos.old ≡ ending_of s.counts (length mpx.now))
        × (length monos.old ≡ ending_of s.counts (length mpx.now))
        × (length changes.old ≡ ending_of s.counts (length mpx.now))
        × (length magnitudes.old ≡ ending_of s.counts (length mpx.now)) }
    requires summary { summary_fit f32 unsigned_f32 (summary_of_f32 s) ≡ true }
    ensures leaves { record {
      said = said_in result.answer;
      sum = sum.new;
      difference = difference.new;
      columns = record {
        stereo = stereos.new;
        mono = monos.new;
        changes = changes.new;
        magnitude = magnitudes.new;
      };
      pll = pll_of_f32 result.decoder;
      summary = summary_of_f32 result.summary;
    }
        ≡ summary_run f32 (pll_of_f32 d) (summary_of_f32 s) table.now mpx.now pilot.now }
    ensures count { count_in result.answer ≡ count (wide_up_to f32 is_wide table.now mpx.now pilot.now
        (pll_of_f32 d) (length mpx.now)) }
{
    let mut st = d;
    let mut counts = s.counts;
    let mut magnitude = s.magnitude;
    let mut wide = 0usize;
    let mut k = 0usize;
    for i in 0..mpx.len() {
        let x = mpx[i];
        let p = pilot[i];
        let o = step_checked(table, st, x, p);
        sum[i] = x;
        difference[i] = o.difference;
        st = o.next;
        wide += o.wide as usize;
        counts = counted(counts, st.stereo);
        magnitude = larger(magnitude, o.difference);
        if is_full(counts) {
            stereos[k] = counts.stereo;
            monos[k] = counts.mono;
            changes[k] = counts.changes;
            magnitudes[k] = magnitude;
            counts = summary_counts::empty(counts);
            magnitude = 0.0;
            k += 1;
        }
    }
    SummarizedF32 {
        answer: Ok(wide),
        decoder: st,
        summary: SummaryF32 { counts, magnitude },
    }
}

// A block with its summaries, the fast way.
pub fn block(
    d: StereoPllF32,
    s: SummaryF32,
    table: &[f32],
    mpx: &[f32],
    pilot: &[f32],
    sum: &mut [f32],
    difference: &mut [f32],
    stereos: &mut [u32],
    monos: &mut [u32],
    changes: &mut [u32],
    magnitudes: &mut [f32],
) -> SummarizedF32
    ensures leaves { record {
      said = said_in result.answer;
      sum = sum.new;
      difference = difference.new;
      columns = record {
        stereo = stereos.new;
        mono = monos.new;
        changes = changes.new;
        magnitude = magnitudes.new;
      };
      pll = pll_of_f32 result.decoder;
      summary = summary_of_f32 result.summary;
    }
        ≡ summary_of f32 unsigned_f32 (pll_of_f32 d) (summary_of_f32 s) table.now mpx.now pilot.now
        sum.old difference.old
        (record {
          stereo = stereos.old;
          mono = monos.old;
          changes = changes.old;
          magnitude = magnitudes.old;
        }) }
    ensures count { count_in result.answer ≡ summary_count (pll_of_f32 d) (summary_of_f32 s) table.now mpx.now
        pilot.now sum.old difference.old
        (record {
          stereo = stereos.old;
          mono = monos.old;
          changes = changes.old;
          magnitude = magnitudes.old;
        }) }
{
    let own = block_lengths(
        table.len(),
        mpx.len(),
        pilot.len(),
        sum.len(),
        difference.len(),
    );
    let answer = summary_answer(
        is_fit(s),
        s.counts,
        own,
        mpx.len(),
        stereos.len(),
        monos.len(),
        changes.len(),
        magnitudes.len(),
    );
    if let Err(refusal) = answer {
        return SummarizedF32 {
            answer: Err(refusal),
            decoder: d,
            summary: s,
        };
    }
    let cosines = full_table(table);
    run(
        d, s, cosines, mpx, pilot, sum, difference, stereos, monos, changes, magnitudes,
    )
}
