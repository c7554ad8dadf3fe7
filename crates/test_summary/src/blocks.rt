// The blocks that are carried out: decisions, magnitudes, periods. call.rt says what the letters of
// a script are.
ghost use Rattle.std.specs.Prelude.{◌*◌, ◌≤◌, length};

use crate::call::{Both, block};
use crate::start;
use std::io;
use std::io::Write;
use summary_counts::Counts;

// Mono decoders and fresh summaries.
fn begin(period: u32) -> Both {
    let d = start::decoder_f32(false, true);
    let e = start::decoder_q15(0, false, true);
    start::fresh(d, e, period)
}

fn whole(
    out: &mut impl Write,
    ones: &[f32],
    tops: &[i16],
    period: u32,
    script: &[u8],
    places: usize,
) -> io::Result<()>
    requires { (length script.now ≤ 14) × (places ≤ 7) }
{
    block(out, begin(period), script, ones, tops, places)?;
    Ok(())
}

// The script cut before the samples i and j; x, y and z periods end in the three blocks.
fn cut(
    out: &mut impl Write,
    ones: &[f32],
    tops: &[i16],
    period: u32,
    script: &[u8],
    i: usize,
    j: usize,
    x: usize,
    y: usize,
    z: usize,
) -> io::Result<()>
    requires { (length script.now ≤ 14) × (i ≤ j) × (2 * j ≤ length script.now)
        × (x ≤ 7) × (y ≤ 7) × (z ≤ 7) }
{
    let k = 2 * i;
    let l = 2 * j;
    let a = block(out, begin(period), &script[0..k], ones, tops, x)?;
    let b = block(out, a, &script[k..l], ones, tops, y)?;
    block(out, b, &script[l..], ones, tops, z)?;
    Ok(())
}

// Fresh summaries on decoders in stereo: the first sample is a change, though the decoders' records
// do not change. Disabled decoders give the same counts, and differences of 0.
fn in_stereo(out: &mut impl Write, ones: &[f32], tops: &[i16], enabled: bool) -> io::Result<()> {
    let d = start::decoder_f32(true, enabled);
    let e = start::decoder_q15(0, true, enabled);
    block(out, start::fresh(d, e, 2), b"k1k3", ones, tops, 1)?;
    Ok(())
}

// The decoders are reset within a period: the next sample is mono, and a change.
fn reset(out: &mut impl Write, ones: &[f32], tops: &[i16]) -> io::Result<()> {
    let a = block(out, begin(4), b"s1s1", ones, tops, 0)?;
    let mut f = a.f;
    let mut q = a.q;
    let d = f.decoder;
    let e = q.decoder;
    let u = d.reset();
    let v = e.reset();
    f.decoder = u;
    q.decoder = v;
    block(out, Both { f, q }, b"k1k1", ones, tops, 1)?;
    Ok(())
}

// Mono, whose differences are 0; then stereo; a change at a period's first sample, and none; pilot
// samples that are NaNs; a change at a block's first sample, and none.
pub(crate) fn decisions(out: &mut impl Write, ones: &[f32], tops: &[i16]) -> io::Result<()> {
    whole(out, ones, tops, 2, b"k1k2", 1)?;
    in_stereo(out, ones, tops, true)?;
    in_stereo(out, ones, tops, false)?;
    reset(out, ones, tops)?;
    whole(out, ones, tops, 2, b"s1s1s1s1m1m1", 3)?;
    whole(out, ones, tops, 4, b"s1n2m1n3", 1)?;
    cut(out, ones, tops, 6, b"s1s1m1m1m1s1", 2, 4, 0, 0, 1)
}

// x is a NaN, i and j are the infinities, z is -0; in Q15 all are -32768.
pub(crate) fn magnitudes(out: &mut impl Write, ones: &[f32], tops: &[i16]) -> io::Result<()> {
    whole(out, ones, tops, 3, b"s1s-s2", 1)?;
    whole(out, ones, tops, 1, b"s3s1m2s-s0", 5)?;
    whole(out, ones, tops, 2, b"s1sxsxs1sxsx", 3)?;
    whole(out, ones, tops, 1, b"sisjszs1sxmi", 6)
}

// The longest period with one sample to come, and as many changes as samples.
fn longest(out: &mut impl Write, ones: &[f32], tops: &[i16]) -> io::Result<()> {
    let c = Counts {
        period: 4294967295,
        stereo: 4294967294,
        mono: 0,
        changes: 4294967294,
        before: true,
    };
    let d = start::decoder_f32(true, true);
    let e = start::decoder_q15(0, true, true);
    block(out, start::held(d, e, c, 2.0, 2), b"m1", ones, tops, 1)?;
    Ok(())
}

// Periods of 1, 2 and 3 in one block of seven samples; a period of 7 in blocks of 3 and 4, of 1 and
// 6, of 7, with a block of 0 samples after or before them.
fn seven(out: &mut impl Write, ones: &[f32], tops: &[i16], script: &[u8]) -> io::Result<()>
    requires { (14 ≤ length script.now) × (length script.now ≤ 14) }
{
    whole(out, ones, tops, 1, script, 7)?;
    whole(out, ones, tops, 2, script, 3)?;
    whole(out, ones, tops, 3, script, 2)?;
    cut(out, ones, tops, 7, script, 3, 7, 0, 1, 0)?;
    cut(out, ones, tops, 7, script, 1, 7, 0, 1, 0)?;
    cut(out, ones, tops, 7, script, 0, 7, 0, 1, 0)
}

// The second: a period of 3 over blocks of 2.
pub(crate) fn periods(out: &mut impl Write, ones: &[f32], tops: &[i16]) -> io::Result<()> {
    seven(out, ones, tops, b"s1m2s-s2k1m3s2")?;
    cut(out, ones, tops, 3, b"s1m2s3m1s2s1", 2, 4, 0, 1, 1)?;
    longest(out, ones, tops)
}
