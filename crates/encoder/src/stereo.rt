// The stereo multiplex (ITU-R BS.450): the sum, the difference on the subcarrier at twice the
// pilot's phase, and the pilot.
ghost use Rattle.std.specs.Prelude.{◌≡◌, length, slice_index_or};
ghost use Rattle.std.specs.Float.{nan, binary32};
ghost use Rattle.std.specs.Float.Ieee.{add, mul};
ghost use Rattle.answers.specs.Answer.{says, entries};
ghost use Rattle.answers.specs.Samples.{samples};
ghost use Rattle.lookup.specs.Lookup.{sine_at, cos_f32};
ghost use Rattle.encoder.specs.Multiplex.{mixed_of, multiplex_of, phase_at, encode_says, encode_of};

use answers::answer::{ENTRIES, Refusal, inputs_rule, output_rule};
use encoder_record::encode::StereoEncode;
use lookup::lookup::{cos_f32, sine_at, sine_at_twice};

// What a block answers, and the encoder after it.
#[derive(Clone, Copy)]
pub struct EncodeReply {
    pub answer: Result<(), Refusal>,
    pub encoder: StereoEncode,
}

// Sum and difference of one sample, the difference on the subcarrier s2.
fn mixed(main: f32, left: f32, right: f32, s2: f32) -> f32
    ensures { result ≡ mixed_of main left right s2 }
{
    let m = (left + right) * 0.5;
    let d = (left - right) * 0.5;
    main * m + (main * d) * s2
}

// The subcarrier of the difference at each sample.
fn subcarrier(e: StereoEncode, table: &[f32], output: &mut [f32])
    ensures { output.new
        ≡ samples (length output.old) (λ i. cos_f32 table.now (sine_at 2 (phase_at e i))) }
{
    let mut at = e.nco.phase;
    let inc = e.nco.inc;
    for i in 0..output.len() {
        output[i] = cos_f32(table, sine_at_twice(at));
        at = std::num::wrapping_add_u32(at, inc);
    }
}

// Sum and difference of each sample. The output holds the subcarrier before.
fn mix(main: f32, left: &[f32], right: &[f32], output: &mut [f32])
    requires { (length right.now ≡ length left.now) × (length output.old ≡ length left.now) }
    ensures { output.new
        ≡ samples (length left.now) (λ i. mixed_of main
        (slice_index_or left.now i nan) (slice_index_or right.now i nan) (slice_index_or output.old i nan)) }
{
    for i in 0..left.len() {
        let l = left[i];
        let r = right[i];
        let s2 = output[i];
        output[i] = mixed(main, l, r, s2);
    }
}

// The pilot is added to each sample; the next phase comes back.
fn add_pilot(e: StereoEncode, table: &[f32], output: &mut [f32]) -> u32
    ensures phase { result ≡ phase_at e (length output.old) }
    ensures samples { output.new
        ≡ samples (length output.old) (λ i. add binary32 (slice_index_or output.old i nan)
        (mul binary32 e.pilot (cos_f32 table.now (sine_at 1 (phase_at e i))))) }
{
    let mut p = e.nco.phase;
    let inc = e.nco.inc;
    for i in 0..output.len() {
        let x = output[i];
        let s1 = cos_f32(table, sine_at(p));
        output[i] = x + e.pilot * s1;
        p = std::num::wrapping_add_u32(p, inc);
    }
    p
}

// The table with its length written out, so that the compiler leaves the test out of each lookup.
fn full_table(table: &[f32]) -> &[f32]
    requires { length table.now ≡ entries }
    ensures { result.now ≡ table.now }
{
    &table[..ENTRIES]
}

// The samples in order; the next phase comes back. Each lookup has a pass of its own, so that sum
// and difference are mixed four samples at a time.
fn run(e: StereoEncode, table: &[f32], left: &[f32], right: &[f32], output: &mut [f32]) -> u32
    requires { (length table.now ≡ entries)
        × (length right.now ≡ length left.now) × (length output.old ≡ length left.now) }
    ensures phase { result ≡ phase_at e (length left.now) }
    ensures samples { output.new
        ≡ samples (length left.now) (λ i. multiplex_of table.now e.main e.pilot (phase_at e i)
        (slice_index_or left.now i nan) (slice_index_or right.now i nan)) }
{
    let cosines = full_table(table);
    subcarrier(e, cosines, output);
    mix(e.main, left, right, output);
    add_pilot(e, cosines, output)
}

// The answer by the lengths.
fn encode_lengths(table: usize, left: usize, right: usize, output: usize) -> Result<(), Refusal>
    ensures { says result ≡ encode_says table left right output }
{
    inputs_rule(table, left, right)?;
    output_rule(left, output)
}

// A block of left and right to the multiplex.
pub fn encode(
    e: StereoEncode,
    table: &[f32],
    left: &[f32],
    right: &[f32],
    output: &mut [f32],
) -> EncodeReply
    ensures { record { said = says result.answer; output = output.new; encoder = result.encoder }
        ≡ encode_of e table.now left.now right.now output.old }
{
    let answer = encode_lengths(table.len(), left.len(), right.len(), output.len());
    if answer.is_err() {
        return EncodeReply { answer, encoder: e };
    }
    let p = run(e, table, left, right, output);
    EncodeReply {
        answer,
        encoder: e.set_phase(p),
    }
}
