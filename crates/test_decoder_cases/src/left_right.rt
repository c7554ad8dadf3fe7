// Left and right from one call: a case for each refusal, the zeros of a mono block, and document
// 01's P10 and P11. Each is a block of one sample, and its outputs hold 9 before.
ghost use Rattle.std.specs.Prelude.{◌≡◌, ◌≤◌, length};

use crate::show::{done, label, number, sample};
use decoder_record::pll_f32::StereoPllF32;
use decoder_record_q15::pll_q15::StereoPllQ15;
use std::io;
use std::io::Write;
use test_words::words::word_f32;

// A record that differs from a fresh one, so that a change would show.
fn held_f32() -> StereoPllF32 {
    let mut d = crate::record_f32(0.5, 1.0);
    d.phase = 7;
    d.integ = 0.125;
    d.level = 0.25;
    d.stereo = true;
    d
}

// The same in Q15; on and off are so low that it stays in stereo.
fn held_q15(kp: i64) -> StereoPllQ15 {
    let mut d = crate::record_q15(kp);
    d.on = -4611686018427387904;
    d.off = -4611686018427387904;
    d.phase = 7;
    d.integ = 3;
    d.level = 5;
    d.stereo = true;
    d
}

fn pattern(out: &mut impl Write, x: f32) -> io::Result<()> {
    number(out, word_f32(x))
}

// Both outputs as they are left.
fn outputs_f32(out: &mut impl Write, left: &[f32; 2], right: &[f32; 2]) -> io::Result<()> {
    label(out, " left")?;
    pattern(out, left[0])?;
    pattern(out, left[1])?;
    label(out, " right")?;
    pattern(out, right[0])?;
    pattern(out, right[1])?;
    done(out)
}

fn outputs_q15(out: &mut impl Write, left: &[i16; 2], right: &[i16; 2]) -> io::Result<()> {
    label(out, " left")?;
    sample(out, left[0])?;
    sample(out, left[1])?;
    label(out, " right")?;
    sample(out, right[0])?;
    sample(out, right[1])?;
    done(out)
}

// A merged block of the sample x, whose pilot and outputs have these lengths.
fn merged_f32(
    out: &mut impl Write,
    name: &str,
    d: StereoPllF32,
    table: &[f32],
    x: f32,
    pilot: usize,
    left: usize,
    right: usize,
) -> io::Result<()>
    requires { (pilot ≤ 2) × (left ≤ 2) × (right ≤ 2) }
{
    let mpx = [x; 1];
    let quiet = [0.0f32; 2];
    let mut l = [9.0f32; 2];
    let mut r = [9.0f32; 2];
    label(out, name)?;
    let reply = merged::in_f32::block(
        d,
        table,
        &mpx,
        &quiet[0..pilot],
        &mut l[0..left],
        &mut r[0..right],
    );
    crate::shown_f32(out, crate::uncounted(reply))?;
    outputs_f32(out, &l, &r)
}

fn merged_q15(
    out: &mut impl Write,
    name: &str,
    d: StereoPllQ15,
    table: &[i16],
    x: i16,
    pilot: usize,
    left: usize,
    right: usize,
) -> io::Result<()>
    requires { (pilot ≤ 2) × (left ≤ 2) × (right ≤ 2) }
{
    let mpx = [x; 1];
    let quiet = [0i16; 2];
    let mut l = [9i16; 2];
    let mut r = [9i16; 2];
    label(out, name)?;
    let reply = merged_q15::in_q15::block(
        d,
        table,
        &mpx,
        &quiet[0..pilot],
        &mut l[0..left],
        &mut r[0..right],
    );
    crate::shown_q15(out, reply)?;
    outputs_q15(out, &l, &r)
}

// Each cause alone, then each with all later ones in force.
pub(crate) fn causes_f32(out: &mut impl Write, table: &[f32]) -> io::Result<()>
    requires { length table.now ≡ 4097 }
{
    let d = held_f32();
    let short = &table[0..4];
    merged_f32(out, "merged f32, table:", d, short, 3.0, 1, 1, 1)?;
    merged_f32(out, "merged f32, pilot:", d, table, 3.0, 2, 1, 1)?;
    merged_f32(out, "merged f32, left:", d, table, 3.0, 1, 2, 1)?;
    merged_f32(out, "merged f32, right:", d, table, 3.0, 1, 1, 0)?;
    merged_f32(out, "merged f32, table and later:", d, short, 3.0, 2, 0, 2)?;
    merged_f32(out, "merged f32, pilot and later:", d, table, 3.0, 2, 0, 0)?;
    merged_f32(out, "merged f32, left and right:", d, table, 3.0, 1, 2, 0)
}

pub(crate) fn causes_q15(out: &mut impl Write, table: &[i16]) -> io::Result<()>
    requires { length table.now ≡ 4097 }
{
    let d = held_q15(131072);
    let unfit = held_q15(-1);
    let short = &table[0..4];
    merged_q15(out, "merged Q15, unfit:", unfit, table, 3, 1, 1, 1)?;
    merged_q15(out, "merged Q15, table:", d, short, 3, 1, 1, 1)?;
    merged_q15(out, "merged Q15, pilot:", d, table, 3, 2, 1, 1)?;
    merged_q15(out, "merged Q15, left:", d, table, 3, 1, 2, 1)?;
    merged_q15(out, "merged Q15, right:", d, table, 3, 1, 1, 0)?;
    merged_q15(
        out,
        "merged Q15, unfit and later:",
        unfit,
        short,
        3,
        2,
        0,
        2,
    )?;
    merged_q15(out, "merged Q15, table and later:", d, short, 3, 2, 0, 2)?;
    merged_q15(out, "merged Q15, pilot and later:", d, table, 3, 2, 0, 0)?;
    merged_q15(out, "merged Q15, left and right:", d, table, 3, 1, 2, 0)
}

// In mono the difference is +0, so left is -0 + 0 and right is -0 - 0.
pub(crate) fn minus_zero(out: &mut impl Write, table: &[f32]) -> io::Result<()> {
    let d = crate::record_f32(0.5, 1.0);
    merged_f32(out, "merged f32, mpx -0:", d, table, -0.0, 1, 1, 1)
}

// The sample's sum and difference by the decoder, then left and right.
fn matrixed(out: &mut impl Write, name: &str, table: &[i16], x: i16) -> io::Result<()> {
    let d = held_q15(131072);
    crate::sample_q15(out, name, d, table, x, 0)?;
    merged_q15(out, "merged:", d, table, x, 1, 1, 1)
}

// P10 and P11.
pub(crate) fn samples_q15(out: &mut impl Write, table: &[i16]) -> io::Result<()> {
    let low = [-20000i16; 4097];
    matrixed(out, "P10:", table, 20000)?;
    matrixed(out, "P11:", &low, -32768)
}
