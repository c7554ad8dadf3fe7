// The f32 decoder.
ghost use Rattle.std.specs.Prelude.{◌≡◌, true, false};
ghost use Rattle.decoder_gains.specs.Gains.{nought};
ghost use Rattle.decoder_record.specs.State.{enabled_of, reset_of};
ghost use Rattle.decoder_record.specs.Fresh.{new_f32_of};
ghost use Rattle.decoder_record.specs.Records.{pll_of_f32};
ghost use Rattle.decoder.specs.Machine.{block_of};
ghost use Rattle.decoder.specs.F32.{f32};
ghost use Rattle.counted.specs.Counted.{number_in};
ghost use Rattle.decoder_fast.specs.Wide.{count_f32};
ghost use Rattle.pilot_scan.specs.Scan.{scan_of};
ghost use Rattle.c_decoder.specs.Coded.{decoder_of_f32, taken_of, given_of, coded_decoder, coded_block, read_f32, coded_scan};

use crate::shared::Readout;
use answers::answer::{Code, code_of};
use answers::switch::{is_on, switch_of};
use counted::{answer_of, wide_of};
use decoder_record::pll_f32::StereoPllF32;

// The record in C.
#[repr(C)]
#[derive(Clone, Copy)]
pub struct DecoderF32 {
    pub kp: f32,
    pub ki: f32,
    pub imax: f32,
    pub beta: f32,
    pub on: f32,
    pub off: f32,
    pub integ: f32,
    pub level: f32,
    pub step0: u32,
    pub phase: u32,
    pub stereo: u32,
    pub enabled: u32,
}

// 0, or 100 and the cause's number; and the decoder.
#[repr(C)]
#[derive(Clone, Copy)]
pub struct CodedF32 {
    pub code: u32,
    pub decoder: DecoderF32,
}

// What a block answers, and the decoder after it.
#[repr(C)]
#[derive(Clone, Copy)]
pub struct ReplyF32 {
    pub answer: Code,
    pub decoder: DecoderF32,
}

// What a fast block answers, how many of its corrections took the wide way, 0 where it was turned back,
// and the decoder after it.
#[repr(C)]
#[derive(Clone, Copy)]
pub struct CountedF32 {
    pub answer: Code,
    pub wide: usize,
    pub decoder: DecoderF32,
}

// What a scan of a pilot tells.
#[repr(C)]
#[derive(Clone, Copy)]
pub struct ScannedF32 {
    pub finite: u32,
    pub read: usize,
}

// The machine's record from C's, for this crate and the others of the C boundary.
impl From<DecoderF32> for StereoPllF32 {
    ghost from_gives = { λ d r. pll_of_f32 r ≡ taken_of (decoder_of_f32 d) };

    fn from(d: DecoderF32) -> StereoPllF32 {
        StereoPllF32 {
            kp: d.kp,
            ki: d.ki,
            imax: d.imax,
            beta: d.beta,
            on: d.on,
            off: d.off,
            step0: d.step0,
            phase: d.phase,
            integ: d.integ,
            level: d.level,
            stereo: is_on(d.stereo),
            enabled: is_on(d.enabled),
        }
    }
}

// And back.
impl From<StereoPllF32> for DecoderF32 {
    ghost from_gives = { λ t r. decoder_of_f32 r ≡ given_of (pll_of_f32 t) };

    fn from(t: StereoPllF32) -> DecoderF32 {
        DecoderF32 {
            kp: t.kp,
            ki: t.ki,
            imax: t.imax,
            beta: t.beta,
            on: t.on,
            off: t.off,
            integ: t.integ,
            level: t.level,
            step0: t.step0,
            phase: t.phase,
            stereo: switch_of(t.stereo),
            enabled: switch_of(t.enabled),
        }
    }
}

#[unsafe(no_mangle)]
pub extern "C" fn pescrondilu_f32_new(
    pilot: f64,
    natural: f64,
    level: f64,
    beta: f64,
    rate: f64,
) -> CodedF32
    ensures { record { code = result.code; value = decoder_of_f32 result.decoder }
        ≡ coded_decoder nought (new_f32_of pilot natural level beta rate) }
{
    match StereoPllF32::new(pilot, natural, level, beta, rate) {
        Ok(d) => CodedF32 {
            code: 0,
            decoder: DecoderF32::from(d),
        },
        Err(refusal) => CodedF32 {
            code: 100 + refusal.number(),
            decoder: DecoderF32 {
                kp: 0.0,
                ki: 0.0,
                imax: 0.0,
                beta: 0.0,
                on: 0.0,
                off: 0.0,
                integ: 0.0,
                level: 0.0,
                step0: 0,
                phase: 0,
                stereo: 0,
                enabled: 0,
            },
        },
    }
}

#[unsafe(no_mangle)]
pub extern "C" fn pescrondilu_f32_enable(d: DecoderF32) -> DecoderF32
    ensures { decoder_of_f32 result ≡ given_of (enabled_of true (taken_of (decoder_of_f32 d))) }
{
    DecoderF32::from(StereoPllF32::from(d).enable())
}

#[unsafe(no_mangle)]
pub extern "C" fn pescrondilu_f32_disable(d: DecoderF32) -> DecoderF32
    ensures { decoder_of_f32 result ≡ given_of (enabled_of false (taken_of (decoder_of_f32 d))) }
{
    DecoderF32::from(StereoPllF32::from(d).disable())
}

#[unsafe(no_mangle)]
pub extern "C" fn pescrondilu_f32_reset(d: DecoderF32) -> DecoderF32
    ensures { decoder_of_f32 result ≡ given_of (reset_of nought (taken_of (decoder_of_f32 d))) }
{
    DecoderF32::from(StereoPllF32::from(d).reset())
}

// A block, the fast way.
#[unsafe(no_mangle)]
pub extern "C" fn pescrondilu_f32_block(
    d: DecoderF32,
    table: &[f32],
    mpx: &[f32],
    pilot: &[f32],
    sum: &mut [f32],
    difference: &mut [f32],
) -> CountedF32
    ensures leaves { record {
      answer = result.answer;
      sum = sum.new;
      difference = difference.new;
      decoder = decoder_of_f32 result.decoder;
    }
        ≡ coded_block (block_of f32 (taken_of (decoder_of_f32 d))
        table.now mpx.now pilot.now sum.old difference.old) }
    ensures wide { result.wide ≡ number_in (count_f32 (taken_of (decoder_of_f32 d))
        table.now mpx.now pilot.now sum.old difference.old) }
{
    let reply = decoder_fast::block(StereoPllF32::from(d), table, mpx, pilot, sum, difference);
    let said = reply.answer;
    let next = reply.decoder;
    CountedF32 {
        answer: code_of(answer_of(said)),
        wide: wide_of(said),
        decoder: DecoderF32::from(next),
    }
}

// A block, the plain way.
#[unsafe(no_mangle)]
pub extern "C" fn pescrondilu_f32_plain_block(
    d: DecoderF32,
    table: &[f32],
    mpx: &[f32],
    pilot: &[f32],
    sum: &mut [f32],
    difference: &mut [f32],
) -> ReplyF32
    ensures { record {
      answer = result.answer;
      sum = sum.new;
      difference = difference.new;
      decoder = decoder_of_f32 result.decoder;
    }
        ≡ coded_block (block_of f32 (taken_of (decoder_of_f32 d))
        table.now mpx.now pilot.now sum.old difference.old) }
{
    let reply = decoder::plain::block(StereoPllF32::from(d), table, mpx, pilot, sum, difference);
    let said = reply.answer;
    let next = reply.decoder;
    ReplyF32 {
        answer: code_of(said),
        decoder: DecoderF32::from(next),
    }
}

#[unsafe(no_mangle)]
pub extern "C" fn pescrondilu_f32_read(d: DecoderF32) -> Readout
    ensures { result ≡ read_f32 (taken_of (decoder_of_f32 d)) }
{
    let t = StereoPllF32::from(d);
    Readout {
        integrator: t.integrator(),
        integrator_limit: t.integrator_limit(),
        lock_level: t.lock_level(),
        phase: t.phase(),
        stereo: switch_of(t.is_stereo()),
        enabled: switch_of(t.is_enabled()),
    }
}

// Whether every sample of a pilot is finite, and how many were read from the end.
#[unsafe(no_mangle)]
pub extern "C" fn pescrondilu_f32_scan(pilot: &[f32]) -> ScannedF32
    ensures { result ≡ coded_scan (scan_of pilot.now) }
{
    let scanned = pilot_scan::scan(pilot);
    ScannedF32 {
        finite: switch_of(scanned.finite),
        read: scanned.read,
    }
}
