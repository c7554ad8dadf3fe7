// Runs document 01's other cases of the decoder, and one case for each refusal, plain and fast, and
// those of the merged block (left_right.rt). What each has to write stands in the file stdout; it was
// worked out from the document.
#![tactic(auto)]

ghost use Rattle.std.specs.Prelude.{◌≡◌, ◌≤◌, length};

use crate::show::{done, label, number, refused, said, sample, signed};
use counted::answer_of;
use decoder::parts::ReplyF32;
use decoder_fast::FastReply;
use decoder_q15::parts::ReplyQ15;
use decoder_record::pll_f32::StereoPllF32;
use decoder_record_q15::pll_q15::StereoPllQ15;
use std::io;
use std::io::{BufWriter, Write};
use test_words::words::{f32_of, word_f32};

mod left_right;
mod show;

// A construction in f32: the limit's pattern, or the refusal.
fn new_f32(
    out: &mut impl Write,
    pilot: f64,
    natural: f64,
    level: f64,
    beta: f64,
    rate: f64,
) -> io::Result<()> {
    match StereoPllF32::new(pilot, natural, level, beta, rate) {
        Ok(d) => number(out, word_f32(d.imax)),
        Err(refusal) => refused(out, refusal.number()),
    }
}

// The same in Q15: the limit, or the refusal.
fn new_q15(
    out: &mut impl Write,
    pilot: f64,
    natural: f64,
    level: f64,
    beta: f64,
    rate: f64,
) -> io::Result<()> {
    match StereoPllQ15::new(pilot, natural, level, beta, rate) {
        Ok(d) => signed(out, d.imax),
        Err(refusal) => refused(out, refusal.number()),
    }
}

fn construct(
    out: &mut impl Write,
    name: &str,
    pilot: f64,
    natural: f64,
    level: f64,
    beta: f64,
    rate: f64,
) -> io::Result<()> {
    label(out, name)?;
    new_f32(out, pilot, natural, level, beta, rate)?;
    new_q15(out, pilot, natural, level, beta, rate)?;
    done(out)
}

fn constructions(out: &mut impl Write) -> io::Result<()> {
    construct(out, "decoder:", 19000.0, 20.0, 0.1, 0.5, 192000.0)?;
    construct(out, "rate 0:", 19000.0, 20.0, 0.1, 0.5, 0.0)?;
    construct(out, "rate NaN:", 19000.0, 20.0, 0.1, 0.5, 0.0 / 0.0)?;
    construct(out, "pilot at rate/4:", 48000.0, 20.0, 0.1, 0.5, 192000.0)?;
    construct(
        out,
        "natural above pilot/100:",
        19000.0,
        190.1,
        0.1,
        0.5,
        192000.0,
    )?;
    construct(out, "level 1.5:", 19000.0, 20.0, 1.5, 0.5, 192000.0)?;
    construct(
        out,
        "lock coefficient 1.5:",
        19000.0,
        20.0,
        0.1,
        1.5,
        192000.0,
    )
}

fn more_constructions(out: &mut impl Write) -> io::Result<()> {
    construct(
        out,
        "lock coefficient -0:",
        19000.0,
        20.0,
        0.1,
        -0.0,
        192000.0,
    )?;
    construct(out, "level 1e-300:", 19000.0, 20.0, 1e-300, 0.5, 192000.0)?;
    construct(out, "rate 90:", 10.0, 0.1, 1.0, 1e-12, 90.0)?;
    construct(out, "rate 110:", 10.0, 0.1, 1.0, 1e-12, 110.0)?;
    construct(out, "limit 0 in Q15:", 1e21, 1e19, 0.1, 0.5, 1e22)?;
    construct(out, "all at fault:", -1.0, -1.0, -1.0, -1.0, -1.0)?;
    construct(out, "all but the rate:", -1.0, -1.0, -1.0, -1.0, 192000.0)
}

// A record filled in by hand, as if fresh.
fn record_f32(beta: f32, imax: f32) -> StereoPllF32 {
    StereoPllF32 {
        kp: 0.0,
        ki: 0.0,
        imax,
        beta,
        on: 0.02,
        off: 0.015,
        step0: 100,
        phase: 0,
        integ: 0.0,
        level: 0.0,
        stereo: false,
        enabled: true,
    }
}

// The record of P3.
fn record_q15(kp: i64) -> StereoPllQ15 {
    StereoPllQ15 {
        kp,
        ki: 1,
        imax: 40000,
        beta: 65536,
        on: 2147483648,
        off: 1073741824,
        step0: 100,
        phase: 0,
        integ: 0,
        level: 0,
        stereo: false,
        enabled: true,
    }
}

// A fast block's reply without its count, as a plain one's is.
pub(crate) fn uncounted(r: FastReply) -> ReplyF32 {
    let a = r.answer;
    let decoder = r.decoder;
    ReplyF32 {
        answer: answer_of(a),
        decoder,
    }
}

fn shown_f32(out: &mut impl Write, r: ReplyF32) -> io::Result<()> {
    let a = r.answer;
    said(out, a)?;
    number(out, r.decoder.phase as u64)?;
    number(out, word_f32(r.decoder.integ))?;
    number(out, word_f32(r.decoder.level))?;
    number(out, r.decoder.stereo as u64)
}

fn shown_q15(out: &mut impl Write, r: ReplyQ15) -> io::Result<()> {
    let a = r.answer;
    said(out, a)?;
    number(out, r.decoder.phase as u64)?;
    signed(out, r.decoder.integ)?;
    signed(out, r.decoder.level)?;
    number(out, r.decoder.stereo as u64)
}

// A block by both ways, with what it leaves.
fn block_f32(
    out: &mut impl Write,
    name: &str,
    d: StereoPllF32,
    table: &[f32],
    mpx: &[f32],
    pilot: &[f32],
    sum: &mut [f32],
    difference: &mut [f32],
) -> io::Result<()> {
    label(out, name)?;
    shown_f32(
        out,
        decoder::plain::block(d, table, mpx, pilot, sum, difference),
    )?;
    shown_f32(
        out,
        uncounted(decoder_fast::block(d, table, mpx, pilot, sum, difference)),
    )?;
    done(out)
}

fn block_q15(
    out: &mut impl Write,
    name: &str,
    d: StereoPllQ15,
    table: &[i16],
    mpx: &[i16],
    pilot: &[i16],
    sum: &mut [i16],
    difference: &mut [i16],
) -> io::Result<()> {
    label(out, name)?;
    shown_q15(
        out,
        decoder_q15::plain::block(d, table, mpx, pilot, sum, difference),
    )?;
    shown_q15(
        out,
        decoder_q15::fast::block(d, table, mpx, pilot, sum, difference),
    )?;
    done(out)
}

// A block of four samples whose pilot and outputs have these lengths.
fn lengths_f32(
    out: &mut impl Write,
    name: &str,
    d: StereoPllF32,
    table: &[f32],
    pilot: usize,
    sum: usize,
    difference: usize,
) -> io::Result<()>
    requires { (pilot ≤ 4) × (sum ≤ 4) × (difference ≤ 4) }
{
    let mpx = [0.0f32; 4];
    let quiet = [0.0f32; 4];
    let mut s = [0.0f32; 4];
    let mut e = [0.0f32; 4];
    block_f32(
        out,
        name,
        d,
        table,
        &mpx,
        &quiet[0..pilot],
        &mut s[0..sum],
        &mut e[0..difference],
    )
}

// A block of four samples whose pilot and outputs have these lengths.
fn lengths_q15(
    out: &mut impl Write,
    name: &str,
    d: StereoPllQ15,
    table: &[i16],
    pilot: usize,
    sum: usize,
    difference: usize,
) -> io::Result<()>
    requires { (pilot ≤ 4) × (sum ≤ 4) × (difference ≤ 4) }
{
    let mpx = [0i16; 4];
    let quiet = [0i16; 4];
    let mut s = [0i16; 4];
    let mut e = [0i16; 4];
    block_q15(
        out,
        name,
        d,
        table,
        &mpx,
        &quiet[0..pilot],
        &mut s[0..sum],
        &mut e[0..difference],
    )
}

// The causes 9 to 11, and none.
fn causes_f32(out: &mut impl Write, table: &[f32]) -> io::Result<()>
    requires { length table.now ≡ 4097 }
{
    let d = record_f32(0.5, 1.0);
    lengths_f32(out, "f32:", d, table, 4, 4, 4)?;
    lengths_f32(out, "f32, table of 4:", d, &table[0..4], 3, 4, 4)?;
    lengths_f32(out, "f32, pilot short:", d, table, 3, 3, 4)?;
    lengths_f32(out, "f32, sum short:", d, table, 4, 3, 4)?;
    lengths_f32(out, "f32, difference short:", d, table, 4, 4, 3)
}

// The causes 0 and 9 to 11, and none.
fn causes_q15(out: &mut impl Write, table: &[i16]) -> io::Result<()>
    requires { length table.now ≡ 4097 }
{
    let d = record_q15(131072);
    lengths_q15(out, "Q15:", d, table, 4, 4, 4)?;
    lengths_q15(
        out,
        "Q15, unfit, table of 4:",
        record_q15(-1),
        &table[0..4],
        4,
        4,
        4,
    )?;
    lengths_q15(out, "Q15, table of 4:", d, &table[0..4], 3, 4, 4)?;
    lengths_q15(out, "Q15, pilot short:", d, table, 3, 3, 4)?;
    lengths_q15(out, "Q15, sum short:", d, table, 4, 3, 4)?;
    lengths_q15(out, "Q15, difference short:", d, table, 4, 4, 3)
}

// One sample by both ways, with its outputs.
fn sample_q15(
    out: &mut impl Write,
    name: &str,
    d: StereoPllQ15,
    table: &[i16],
    x: i16,
    p: i16,
) -> io::Result<()> {
    let mpx = [x; 1];
    let pilot = [p; 1];
    let mut s = [9i16; 1];
    let mut e = [9i16; 1];
    block_q15(out, name, d, table, &mpx, &pilot, &mut s, &mut e)?;
    label(out, "outputs")?;
    sample(out, s[0])?;
    sample(out, e[0])?;
    done(out)
}

// P3 to P5.
fn samples_q15(out: &mut impl Write, table: &[i16]) -> io::Result<()> {
    let d = record_q15(131072);
    sample_q15(out, "P3:", d, table, 3, 2)?;
    let mpx = [3i16; 2];
    let pilot = [2i16; 2];
    let mut s = [9i16; 2];
    let mut e = [9i16; 2];
    block_q15(out, "P4:", d, table, &mpx, &pilot, &mut s, &mut e)?;
    sample_q15(out, "P5:", d, table, 3, -2)
}

// The decoder of docs/DIFFERENCES.md, where the rounding stops at the largest i64.
fn at_the_top(out: &mut impl Write) -> io::Result<()> {
    let low = [-32768i16; 4097];
    match StereoPllQ15::new(19000.0, 40.0, 0.00117912543, 0.5, 192000.0) {
        Ok(d) => sample_q15(out, "near the largest i64:", d, &low, 0, -32768),
        Err(refusal) => refused(out, refusal.number()),
    }
}

// Finite pilots that make a level that is no number, and a limit below 0.
fn odd_f32(out: &mut impl Write, table: &[f32]) -> io::Result<()> {
    let three = [0.0f32; 3];
    let pilot = [f32_of(0xFF61_B1E6), f32_of(0x7F61_B1E6), 0.0];
    let mut s = [9.0f32; 3];
    let mut e = [9.0f32; 3];
    block_f32(
        out,
        "level NaN:",
        record_f32(1.0, 1.0),
        table,
        &three,
        &pilot,
        &mut s,
        &mut e,
    )?;
    block_f32(
        out,
        "limit -1:",
        record_f32(1.0, -1.0),
        table,
        &three,
        &three,
        &mut s,
        &mut e,
    )
}

fn main(rt: HostRuntime) -> io::Result<()> {
    let mut out = BufWriter::new(rt.alloc(), io::writer(&rt))?;
    let ones = [1.0f32; 4097];
    let halves = [16384i16; 4097];
    constructions(&mut out)?;
    more_constructions(&mut out)?;
    causes_f32(&mut out, &ones)?;
    causes_q15(&mut out, &halves)?;
    samples_q15(&mut out, &halves)?;
    at_the_top(&mut out)?;
    odd_f32(&mut out, &ones)?;
    left_right::causes_f32(&mut out, &ones)?;
    left_right::causes_q15(&mut out, &halves)?;
    left_right::minus_zero(&mut out, &ones)?;
    left_right::samples_q15(&mut out, &halves)?;
    out.flush()
}
