// The multiplex with RDS on the subcarrier at three times the pilot's phase.
ghost use Rattle.std.specs.Prelude.{◌≡◌, length, slice_index_or};
ghost use Rattle.std.specs.Float.{nan, binary32};
ghost use Rattle.std.specs.Float.Ieee.{add, mul};
ghost use Rattle.answers.specs.Answer.{says, entries};
ghost use Rattle.answers.specs.Samples.{samples};
ghost use Rattle.lookup.specs.Lookup.{sine_at, cos_f32};
ghost use Rattle.encoder.specs.Multiplex.{phase_at};
ghost use Rattle.encoder_rds.specs.MultiplexRds.{encode_rds_says, encode_rds_of};

use answers::answer::{ENTRIES, Refusal, input_rule, inputs_rule, output_rule};
use encoder_record_rds::rds::StereoEncodeRds;
use lookup::lookup::{cos_f32, sine_at_thrice};

// What a block answers, and the encoder after it.
#[derive(Clone, Copy)]
pub struct EncodeRdsReply {
    pub answer: Result<(), Refusal>,
    pub encoder: StereoEncodeRds,
}

// The table with its length written out, so that the compiler leaves the test out of each lookup.
fn full_table(table: &[f32]) -> &[f32]
    requires { length table.now ≡ entries }
    ensures { result.now ≡ table.now }
{
    &table[..ENTRIES]
}

// RDS is added to each sample.
fn add_rds(e: StereoEncodeRds, table: &[f32], rds: &[f32], output: &mut [f32])
    requires { length output.old ≡ length rds.now }
    ensures { output.new
        ≡ samples (length rds.now) (λ i. add binary32 (slice_index_or output.old i nan)
        (mul binary32 (mul binary32 e.rds (slice_index_or rds.now i nan))
        (cos_f32 table.now (sine_at 3 (phase_at e.enc i))))) }
{
    let enc = e.enc;
    let level = e.rds;
    let mut p = enc.nco.phase;
    let inc = enc.nco.inc;
    for i in 0..rds.len() {
        let x = output[i];
        let b = rds[i];
        let s3 = cos_f32(table, sine_at_thrice(p));
        output[i] = x + (level * b) * s3;
        p = std::num::wrapping_add_u32(p, inc);
    }
}

// The answer by the lengths.
fn encode_lengths(
    table: usize,
    left: usize,
    right: usize,
    rds: usize,
    output: usize,
) -> Result<(), Refusal>
    ensures { says result ≡ encode_rds_says table left right rds output }
{
    inputs_rule(table, left, right)?;
    input_rule(left, rds)?;
    output_rule(left, output)
}

// A block of left, right and the RDS baseband to the multiplex.
pub fn encode(
    e: StereoEncodeRds,
    table: &[f32],
    left: &[f32],
    right: &[f32],
    rds: &[f32],
    output: &mut [f32],
) -> EncodeRdsReply
    ensures { record { said = says result.answer; output = output.new; encoder = result.encoder }
        ≡ encode_rds_of e
        table.now left.now right.now rds.now output.old }
{
    let answer = encode_lengths(
        table.len(),
        left.len(),
        right.len(),
        rds.len(),
        output.len(),
    );
    if answer.is_err() {
        return EncodeRdsReply { answer, encoder: e };
    }
    let enc = e.enc;
    let reply = encoder::stereo::encode(enc, table, left, right, output);
    add_rds(e, full_table(table), rds, output);
    let next = reply.encoder;
    EncodeRdsReply {
        answer,
        encoder: StereoEncodeRds {
            enc: next,
            rds: e.rds,
        },
    }
}
