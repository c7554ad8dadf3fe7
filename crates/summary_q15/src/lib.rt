// A summary beside the pairs in Q15: the fast block's samples, each with its part of the summary.
#![tactic(auto)]

ghost use Rattle.std.specs.Prelude.{◌≡◌, true, length};
ghost use Rattle.answers.specs.Answer.{says, entries};
ghost use Rattle.decoder_q15.specs.Q15.{q15};
ghost use Rattle.decoder_record_q15.specs.Records.{pll_of_q15};
ghost use Rattle.decoder_record_q15.specs.Fit.{fit_q15};
ghost use Rattle.summary_counts.specs.Counts.{ending_of};
ghost use Rattle.summary_call.specs.Summary.{summary_run, summary_of};
ghost use Rattle.summary_record.specs.Record.{summary_fit};
ghost use Rattle.summary_record.specs.Q15.{unsigned_q15, summary_of_q15};

use answers::answer::{ENTRIES, Refusal};
use decoder_q15::fast::step_checked;
use decoder_q15::parts::block_answer;
use decoder_record_q15::pll_q15::StereoPllQ15;
use summary_counts::{counted, is_full, summary_answer};
use summary_record::in_q15::{SummaryQ15, is_fit, larger};

// A decoder and a summary after a block, and the answer.
#[derive(Clone, Copy)]
pub struct SummarizedQ15 {
    pub answer: Result<(), Refusal>,
    pub decoder: StereoPllQ15,
    pub summary: SummaryQ15,
}

// The table with its length written out, so that the compiler leaves the test out of each lookup.
fn full_table(table: &[i16]) -> &[i16]
    requires { length table.now ≡ entries }
    ensures { result.now ≡ table.now }
{
    &table[..ENTRIES]
}

// The samples in order.
fn run(
    d: StereoPllQ15,
    s: SummaryQ15,
    table: &[i16],
    mpx: &[i16],
    pilot: &[i16],
    sum: &mut [i16],
    difference: &mut [i16],
    stereos: &mut [u32],
    monos: &mut [u32],
    changes: &mut [u32],
    magnitudes: &mut [i16],
) -> SummarizedQ15
    requires lengths { (length pilot.now ≡ length mpx.now)
        × (length sum.old ≡ length mpx.now)
        × (length difference.old ≡ length mpx.now) }
    requires columns { (length stereos.old ≡ ending_of s.counts (length mpx.now))
        × (length monos.old ≡ ending_of s.counts (length mpx.now))
        × (length changes.old ≡ ending_of s.counts (length mpx.now))
        × (length magnitudes.old ≡ ending_of s.counts (length mpx.now)) }
    requires summary { summary_fit q15 unsigned_q15 (summary_of_q15 s) ≡ true }
    requires fit { fit_q15 (pll_of_q15 d) ≡ true }
    ensures { record {
      said = says result.answer;
      sum = sum.new;
      difference = difference.new;
      columns = record {
        stereo = stereos.new;
        mono = monos.new;
        changes = changes.new;
        magnitude = magnitudes.new;
      };
      pll = pll_of_q15 result.decoder;
      summary = summary_of_q15 result.summary;
    }
        ≡ summary_run q15 (pll_of_q15 d) (summary_of_q15 s) table.now mpx.now pilot.now }
{
    let mut st = d;
    let mut counts = s.counts;
    let mut magnitude = s.magnitude;
    let mut k = 0usize;
    for i in 0..mpx.len() {
        let x = mpx[i];
        let p = pilot[i];
        let o = step_checked(table, st, x, p);
        sum[i] = x;
        let y = o.difference;
        difference[i] = y;
        st = o.next;
        counts = counted(counts, st.stereo);
        magnitude = larger(magnitude, y);
        if is_full(counts) {
            stereos[k] = counts.stereo;
            monos[k] = counts.mono;
            changes[k] = counts.changes;
            magnitudes[k] = magnitude;
            counts = summary_counts::empty(counts);
            magnitude = 0;
            k += 1;
        }
    }
    SummarizedQ15 {
        answer: Ok(()),
        decoder: st,
        summary: SummaryQ15 { counts, magnitude },
    }
}

// A block with its summaries, the fast way.
pub fn block(
    d: StereoPllQ15,
    s: SummaryQ15,
    table: &[i16],
    mpx: &[i16],
    pilot: &[i16],
    sum: &mut [i16],
    difference: &mut [i16],
    stereos: &mut [u32],
    monos: &mut [u32],
    changes: &mut [u32],
    magnitudes: &mut [i16],
) -> SummarizedQ15
    ensures { record {
      said = says result.answer;
      sum = sum.new;
      difference = difference.new;
      columns = record {
        stereo = stereos.new;
        mono = monos.new;
        changes = changes.new;
        magnitude = magnitudes.new;
      };
      pll = pll_of_q15 result.decoder;
      summary = summary_of_q15 result.summary;
    }
        ≡ summary_of q15 unsigned_q15 (pll_of_q15 d) (summary_of_q15 s) table.now mpx.now pilot.now
        sum.old difference.old
        (record {
          stereo = stereos.old;
          mono = monos.old;
          changes = changes.old;
          magnitude = magnitudes.old;
        }) }
{
    let own = block_answer(
        decoder_fit_q15::fit::is_fit(d),
        table.len(),
        mpx.len(),
        pilot.len(),
        sum.len(),
        difference.len(),
    );
    let answer = summary_answer(
        is_fit(s),
        s.counts,
        own,
        mpx.len(),
        stereos.len(),
        monos.len(),
        changes.len(),
        magnitudes.len(),
    );
    if answer.is_err() {
        return SummarizedQ15 {
            answer,
            decoder: d,
            summary: s,
        };
    }
    let cosines = full_table(table);
    run(
        d, s, cosines, mpx, pilot, sum, difference, stereos, monos, changes, magnitudes,
    )
}
