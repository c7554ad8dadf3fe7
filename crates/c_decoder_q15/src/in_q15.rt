// The Q15 decoder.
ghost use Rattle.std.specs.Prelude.{◌≡◌, true, false, pos};
ghost use Rattle.decoder_record.specs.State.{enabled_of, reset_of};
ghost use Rattle.decoder_record_q15.specs.Fresh.{new_q15_of};
ghost use Rattle.decoder_record_q15.specs.Records.{pll_of_q15};
ghost use Rattle.decoder.specs.Machine.{block_of};
ghost use Rattle.decoder_q15.specs.Q15.{q15};
ghost use Rattle.c_decoder.specs.Coded.{taken_of, given_of, coded_decoder, coded_block};
ghost use Rattle.c_decoder_q15.specs.CodedQ15.{decoder_of_q15, read_q15};

use answers::answer::{Code, code_of};
use answers::switch::{is_on, switch_of};
use c_decoder::shared::Readout;
use decoder_record_q15::pll_q15::StereoPllQ15;

// The record in C.
#[repr(C)]
#[derive(Clone, Copy)]
pub struct DecoderQ15 {
    pub kp: i64,
    pub ki: i64,
    pub imax: i64,
    pub beta: i64,
    pub on: i64,
    pub off: i64,
    pub integ: i64,
    pub level: i64,
    pub step0: u32,
    pub phase: u32,
    pub stereo: u32,
    pub enabled: u32,
}

// 0, or 100 and the cause's number; and the decoder.
#[repr(C)]
#[derive(Clone, Copy)]
pub struct CodedQ15 {
    pub code: u32,
    pub decoder: DecoderQ15,
}

// What a block answers, and the decoder after it.
#[repr(C)]
#[derive(Clone, Copy)]
pub struct ReplyQ15 {
    pub answer: Code,
    pub decoder: DecoderQ15,
}

// The machine's record from C's, for this crate and the others of the C boundary.
impl From<DecoderQ15> for StereoPllQ15 {
    ghost from_gives = { λ d r. pll_of_q15 r ≡ taken_of (decoder_of_q15 d) };

    fn from(d: DecoderQ15) -> StereoPllQ15 {
        StereoPllQ15 {
            kp: d.kp,
            ki: d.ki,
            imax: d.imax,
            beta: d.beta,
            on: d.on,
            off: d.off,
            step0: d.step0,
            phase: d.phase,
            integ: d.integ,
            level: d.level,
            stereo: is_on(d.stereo),
            enabled: is_on(d.enabled),
        }
    }
}

// And back.
impl From<StereoPllQ15> for DecoderQ15 {
    ghost from_gives = { λ t r. decoder_of_q15 r ≡ given_of (pll_of_q15 t) };

    fn from(t: StereoPllQ15) -> DecoderQ15 {
        DecoderQ15 {
            kp: t.kp,
            ki: t.ki,
            imax: t.imax,
            beta: t.beta,
            on: t.on,
            off: t.off,
            integ: t.integ,
            level: t.level,
            step0: t.step0,
            phase: t.phase,
            stereo: switch_of(t.stereo),
            enabled: switch_of(t.enabled),
        }
    }
}

#[unsafe(no_mangle)]
pub extern "C" fn pescrondilu_q15_new(
    pilot: f64,
    natural: f64,
    level: f64,
    beta: f64,
    rate: f64,
) -> CodedQ15
    ensures { record { code = result.code; value = decoder_of_q15 result.decoder }
        ≡ coded_decoder (pos 0) (new_q15_of pilot natural level beta rate) }
{
    match StereoPllQ15::new(pilot, natural, level, beta, rate) {
        Ok(d) => CodedQ15 {
            code: 0,
            decoder: DecoderQ15::from(d),
        },
        Err(refusal) => CodedQ15 {
            code: 100 + refusal.number(),
            decoder: DecoderQ15 {
                kp: 0,
                ki: 0,
                imax: 0,
                beta: 0,
                on: 0,
                off: 0,
                integ: 0,
                level: 0,
                step0: 0,
                phase: 0,
                stereo: 0,
                enabled: 0,
            },
        },
    }
}

#[unsafe(no_mangle)]
pub extern "C" fn pescrondilu_q15_enable(d: DecoderQ15) -> DecoderQ15
    ensures { decoder_of_q15 result ≡ given_of (enabled_of true (taken_of (decoder_of_q15 d))) }
{
    DecoderQ15::from(StereoPllQ15::from(d).enable())
}

#[unsafe(no_mangle)]
pub extern "C" fn pescrondilu_q15_disable(d: DecoderQ15) -> DecoderQ15
    ensures { decoder_of_q15 result ≡ given_of (enabled_of false (taken_of (decoder_of_q15 d))) }
{
    DecoderQ15::from(StereoPllQ15::from(d).disable())
}

#[unsafe(no_mangle)]
pub extern "C" fn pescrondilu_q15_reset(d: DecoderQ15) -> DecoderQ15
    ensures { decoder_of_q15 result ≡ given_of (reset_of (pos 0) (taken_of (decoder_of_q15 d))) }
{
    DecoderQ15::from(StereoPllQ15::from(d).reset())
}

// A block, the fast way.
#[unsafe(no_mangle)]
pub extern "C" fn pescrondilu_q15_block(
    d: DecoderQ15,
    table: &[i16],
    mpx: &[i16],
    pilot: &[i16],
    sum: &mut [i16],
    difference: &mut [i16],
) -> ReplyQ15
    ensures { record {
      answer = result.answer;
      sum = sum.new;
      difference = difference.new;
      decoder = decoder_of_q15 result.decoder;
    }
        ≡ coded_block (block_of q15 (taken_of (decoder_of_q15 d))
        table.now mpx.now pilot.now sum.old difference.old) }
{
    let reply = decoder_q15::fast::block(StereoPllQ15::from(d), table, mpx, pilot, sum, difference);
    let said = reply.answer;
    let next = reply.decoder;
    ReplyQ15 {
        answer: code_of(said),
        decoder: DecoderQ15::from(next),
    }
}

// A block, the plain way.
#[unsafe(no_mangle)]
pub extern "C" fn pescrondilu_q15_plain_block(
    d: DecoderQ15,
    table: &[i16],
    mpx: &[i16],
    pilot: &[i16],
    sum: &mut [i16],
    difference: &mut [i16],
) -> ReplyQ15
    ensures { record {
      answer = result.answer;
      sum = sum.new;
      difference = difference.new;
      decoder = decoder_of_q15 result.decoder;
    }
        ≡ coded_block (block_of q15 (taken_of (decoder_of_q15 d))
        table.now mpx.now pilot.now sum.old difference.old) }
{
    let reply = decoder_q15::plain::block(
        StereoPllQ15::from(d),
        table,
        mpx,
        pilot,
        sum,
        difference,
    );
    let said = reply.answer;
    let next = reply.decoder;
    ReplyQ15 {
        answer: code_of(said),
        decoder: DecoderQ15::from(next),
    }
}

#[unsafe(no_mangle)]
pub extern "C" fn pescrondilu_q15_read(d: DecoderQ15) -> Readout
    ensures { result ≡ read_q15 (taken_of (decoder_of_q15 d)) }
{
    let t = StereoPllQ15::from(d);
    Readout {
        integrator: t.integrator(),
        integrator_limit: t.integrator_limit(),
        lock_level: t.lock_level(),
        phase: t.phase(),
        stereo: switch_of(t.is_stereo()),
        enabled: switch_of(t.is_enabled()),
    }
}
