// The stereo encoder.
ghost use Rattle.std.specs.Prelude.{◌≡◌};
ghost use Rattle.encoder_record.specs.Encode.{new_of, set_pilot_of, encode_at};
ghost use Rattle.encoder.specs.Multiplex.{encode_of};
ghost use Rattle.answers.specs.Coded.{coded_new, coded_set};
ghost use Rattle.c_encoder.specs.Coded.{no_encode, coded_block};

use answers::answer::{Code, code_of};
use encoder_record::encode::StereoEncode;
use oscillator::nco::Nco;

// 0, or 100 and the cause's number; and the encoder.
#[repr(C)]
#[derive(Clone, Copy)]
pub struct CodedEncode {
    pub code: u32,
    pub encoder: StereoEncode,
}

// What a block answers, and the encoder after it.
#[repr(C)]
#[derive(Clone, Copy)]
pub struct EncodeReply {
    pub answer: Code,
    pub encoder: StereoEncode,
}

#[unsafe(no_mangle)]
pub extern "C" fn pescrondilu_encode_new(
    frequency: f64,
    main: f32,
    pilot: f32,
    rate: f64,
) -> CodedEncode
    ensures { record { code = result.code; value = result.encoder }
        ≡ coded_new no_encode (new_of frequency main pilot rate) }
{
    match StereoEncode::new(frequency, main, pilot, rate) {
        Ok(encoder) => CodedEncode { code: 0, encoder },
        Err(refusal) => CodedEncode {
            code: 100 + refusal.number(),
            encoder: StereoEncode {
                nco: Nco { phase: 0, inc: 0 },
                main: 0.0,
                pilot: 0.0,
            },
        },
    }
}

#[unsafe(no_mangle)]
pub extern "C" fn pescrondilu_encode_set_pilot(e: StereoEncode, pilot: f32) -> CodedEncode
    ensures { record { code = result.code; value = result.encoder } ≡ coded_set (set_pilot_of e pilot) }
{
    let mut encoder = e;
    let code = code_of(encoder.set_pilot(pilot)).code;
    CodedEncode { code, encoder }
}

#[unsafe(no_mangle)]
pub extern "C" fn pescrondilu_encode_set_phase(e: StereoEncode, p: u32) -> StereoEncode
    ensures { result ≡ encode_at e p }
{
    e.set_phase(p)
}

#[unsafe(no_mangle)]
pub extern "C" fn pescrondilu_encode_reset(e: StereoEncode) -> StereoEncode
    ensures { result ≡ encode_at e 0 }
{
    e.reset()
}

#[unsafe(no_mangle)]
pub extern "C" fn pescrondilu_encode_block(
    e: StereoEncode,
    table: &[f32],
    left: &[f32],
    right: &[f32],
    output: &mut [f32],
) -> EncodeReply
    ensures { record { answer = result.answer; output = output.new; encoder = result.encoder }
        ≡ coded_block (encode_of e table.now left.now right.now output.old) }
{
    let reply = encoder::stereo::encode(e, table, left, right, output);
    let said = reply.answer;
    let next = reply.encoder;
    EncodeReply {
        answer: code_of(said),
        encoder: next,
    }
}
