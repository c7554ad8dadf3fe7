// The encoder with RDS.
ghost use Rattle.std.specs.Prelude.{◌≡◌};
ghost use Rattle.encoder_record_rds.specs.EncodeRds.{new_rds_of, set_rds_pilot_of, set_rds_of, rds_at};
ghost use Rattle.encoder_rds.specs.MultiplexRds.{encode_rds_of};
ghost use Rattle.answers.specs.Coded.{coded_new, coded_set};
ghost use Rattle.c_encoder.specs.Coded.{coded_block};
ghost use Rattle.c_encoder_rds.specs.CodedRds.{no_encode_rds};

use answers::answer::{Code, code_of};
use encoder_record::encode::StereoEncode;
use encoder_record_rds::rds::StereoEncodeRds;
use oscillator::nco::Nco;

// 0, or 100 and the cause's number; and the encoder.
#[repr(C)]
#[derive(Clone, Copy)]
pub struct CodedEncodeRds {
    pub code: u32,
    pub encoder: StereoEncodeRds,
}

// What a block answers, and the encoder after it.
#[repr(C)]
#[derive(Clone, Copy)]
pub struct EncodeRdsReply {
    pub answer: Code,
    pub encoder: StereoEncodeRds,
}

#[unsafe(no_mangle)]
pub extern "C" fn pescrondilu_encode_rds_new(
    frequency: f64,
    main: f32,
    pilot: f32,
    rds: f32,
    rate: f64,
) -> CodedEncodeRds
    ensures { record { code = result.code; value = result.encoder }
        ≡ coded_new no_encode_rds (new_rds_of frequency main pilot rds rate) }
{
    match StereoEncodeRds::new(frequency, main, pilot, rds, rate) {
        Ok(encoder) => CodedEncodeRds { code: 0, encoder },
        Err(refusal) => CodedEncodeRds {
            code: 100 + refusal.number(),
            encoder: StereoEncodeRds {
                enc: StereoEncode {
                    nco: Nco { phase: 0, inc: 0 },
                    main: 0.0,
                    pilot: 0.0,
                },
                rds: 0.0,
            },
        },
    }
}

#[unsafe(no_mangle)]
pub extern "C" fn pescrondilu_encode_rds_set_pilot(e: StereoEncodeRds, pilot: f32) -> CodedEncodeRds
    ensures { record { code = result.code; value = result.encoder } ≡ coded_set (set_rds_pilot_of e pilot) }
{
    let mut encoder = e;
    let code = code_of(encoder.set_pilot(pilot)).code;
    CodedEncodeRds { code, encoder }
}

#[unsafe(no_mangle)]
pub extern "C" fn pescrondilu_encode_rds_set_rds(e: StereoEncodeRds, rds: f32) -> CodedEncodeRds
    ensures { record { code = result.code; value = result.encoder } ≡ coded_set (set_rds_of e rds) }
{
    let mut encoder = e;
    let code = code_of(encoder.set_rds(rds)).code;
    CodedEncodeRds { code, encoder }
}

#[unsafe(no_mangle)]
pub extern "C" fn pescrondilu_encode_rds_set_phase(e: StereoEncodeRds, p: u32) -> StereoEncodeRds
    ensures { result ≡ rds_at e p }
{
    e.set_phase(p)
}

#[unsafe(no_mangle)]
pub extern "C" fn pescrondilu_encode_rds_reset(e: StereoEncodeRds) -> StereoEncodeRds
    ensures { result ≡ rds_at e 0 }
{
    e.reset()
}

#[unsafe(no_mangle)]
pub extern "C" fn pescrondilu_encode_rds_block(
    e: StereoEncodeRds,
    table: &[f32],
    left: &[f32],
    right: &[f32],
    rds: &[f32],
    output: &mut [f32],
) -> EncodeRdsReply
    ensures { record { answer = result.answer; output = output.new; encoder = result.encoder }
        ≡ coded_block (encode_rds_of e
        table.now left.now right.now rds.now output.old) }
{
    let reply = encoder_rds::rds::encode(e, table, left, right, rds, output);
    let said = reply.answer;
    let next = reply.encoder;
    EncodeRdsReply {
        answer: code_of(said),
        encoder: next,
    }
}
