// The refusals: each cause of 20 and the summaries just inside it, and the order of the causes.
// Each call is on two samples that keep the decision.
ghost use Rattle.std.specs.Prelude.{◌≡◌, ◌≤◌, length};

use crate::call::{Both, Lengths, fitting, run};
use crate::start;
use std::io;
use std::io::Write;
use summary_counts::Counts;
use test_words::words::f32_of;

// A call that only the summaries can have refused, if this many periods end.
fn held(
    out: &mut impl Write,
    name: &[u8],
    ones: &[f32],
    tops: &[i16],
    c: Counts,
    m: f32,
    k: i16,
    places: usize,
) -> io::Result<()>
    requires { places ≤ 7 }
{
    let d = start::decoder_f32(true, true);
    let e = start::decoder_q15(0, true, true);
    let b = start::held(d, e, c, m, k);
    run(out, b, name, b"k2k2", ones, tops, fitting(2, places))?;
    Ok(())
}

// Counts after a stereo sample.
fn counted(
    out: &mut impl Write,
    name: &[u8],
    ones: &[f32],
    tops: &[i16],
    period: u32,
    stereo: u32,
    mono: u32,
    changes: u32,
    places: usize,
) -> io::Result<()>
    requires { places ≤ 7 }
{
    let c = Counts {
        period,
        stereo,
        mono,
        changes,
        before: true,
    };
    held(out, name, ones, tops, c, 0.0, 0, places)
}

// 2147483648 twice is 2^32, which is 0 in 32 bits.
pub(crate) fn by_counts(out: &mut impl Write, ones: &[f32], tops: &[i16]) -> io::Result<()> {
    counted(out, b"period 0", ones, tops, 0, 0, 0, 0, 0)?;
    counted(out, b"held 7 of 7", ones, tops, 7, 3, 4, 0, 1)?;
    counted(out, b"held 6 of 7", ones, tops, 7, 2, 4, 0, 1)?;
    counted(
        out,
        b"held 2^32",
        ones,
        tops,
        7,
        2147483648,
        2147483648,
        0,
        0,
    )?;
    counted(out, b"3 changes of 2", ones, tops, 7, 1, 1, 3, 0)?;
    counted(out, b"2 changes of 2", ones, tops, 7, 1, 1, 2, 0)
}

// The magnitudes m and k, with nothing held and with one sample.
fn magnitude(
    out: &mut impl Write,
    name: &[u8],
    ones: &[f32],
    tops: &[i16],
    m: f32,
    k: i16,
) -> io::Result<()> {
    let none = Counts {
        period: 7,
        stereo: 0,
        mono: 0,
        changes: 0,
        before: true,
    };
    held(out, name, ones, tops, none, m, k, 0)?;
    let one = Counts {
        period: 7,
        stereo: 1,
        mono: 0,
        changes: 0,
        before: true,
    };
    held(out, name, ones, tops, one, m, k, 0)
}

pub(crate) fn by_magnitude(out: &mut impl Write, ones: &[f32], tops: &[i16]) -> io::Result<()> {
    magnitude(out, b"magnitude NaN, -32768", ones, tops, 0.0 / 0.0, -32768)?;
    magnitude(out, b"magnitude -1, -1", ones, tops, -1.0, -1)?;
    magnitude(out, b"magnitude -0, 0", ones, tops, -0.0, 0)?;
    magnitude(out, b"magnitude 0, 0", ones, tops, 0.0, 0)?;
    magnitude(out, b"magnitude subnormal, 1", ones, tops, f32_of(1), 1)?;
    magnitude(
        out,
        b"magnitude infinity, 32767",
        ones,
        tops,
        f32_of(0x7F80_0000),
        32767,
    )
}

// Whether the pattern has an x at place k.
fn wrong(pattern: &[u8], k: usize) -> bool {
    if k < pattern.len() {
        pattern[k] == b'x'
    } else {
        false
    }
}

// A length by the pattern.
fn either(pattern: &[u8], k: usize, bad: usize, good: usize, most: usize) -> usize
    requires { (bad ≤ most) × (good ≤ most) }
    ensures { result ≤ most }
{
    if wrong(pattern, k) { bad } else { good }
}

// Of two samples one period ends. Each column has another wrong length, so that the answer tells
// them apart.
fn lengths(pattern: &[u8]) -> Lengths
    ensures { ((result.pilot ≤ 7) × (result.sum ≤ 7) × (result.difference ≤ 7)) × ((result.stereo ≤ 7) × (result.mono ≤ 7) × (result.changes ≤ 7) × (result.magnitude ≤ 7)) }
{
    Lengths {
        pilot: either(pattern, 3, 1, 2, 7),
        sum: either(pattern, 4, 3, 2, 7),
        difference: either(pattern, 5, 1, 2, 7),
        stereo: either(pattern, 6, 0, 1, 7),
        mono: either(pattern, 7, 2, 1, 7),
        changes: either(pattern, 8, 3, 1, 7),
        magnitude: either(pattern, 9, 7, 1, 7),
    }
}

// A call by the pattern, apart from what it says of summary and decoder.
fn by_lengths(
    out: &mut impl Write,
    b: Both,
    pattern: &[u8],
    ones: &[f32],
    tops: &[i16],
) -> io::Result<()>
    requires { (length ones.now ≡ 4097) × (length tops.now ≡ 4097) }
{
    let n = either(pattern, 2, 4, 4097, 4097);
    let l = lengths(pattern);
    run(out, b, pattern, b"k2k2", &ones[0..n], &tops[0..n], l)?;
    Ok(())
}

// The causes with an x in the pattern are in force: 20, 0, 9, 10, 11 for sum and difference, 11 for
// the columns of stereo samples, mono samples, changes, magnitude. There is no 0 in f32. One sample
// is held of a period of 3, and 2 changes are one too many.
fn ordered(out: &mut impl Write, pattern: &[u8], ones: &[f32], tops: &[i16]) -> io::Result<()>
    requires { (length ones.now ≡ 4097) × (length tops.now ≡ 4097) }
{
    let changes = if wrong(pattern, 0) { 2 } else { 1 };
    let c = Counts {
        period: 3,
        stereo: 1,
        mono: 0,
        changes,
        before: true,
    };
    let kp = if wrong(pattern, 1) { -1 } else { 0 };
    let d = start::decoder_f32(true, true);
    let e = start::decoder_q15(kp, true, true);
    let b = start::held(d, e, c, 1.0, 1);
    by_lengths(out, b, pattern, ones, tops)
}

// Each ten places of the text that follow each other are a pattern.
fn windows(out: &mut impl Write, text: &[u8], ones: &[f32], tops: &[i16]) -> io::Result<()>
    requires { (length ones.now ≡ 4097) × (length tops.now ≡ 4097) }
{
    for pattern in text.windows(10) {
        ordered(out, pattern, ones, tops)?;
    }
    Ok(())
}

// None and each cause alone, from the last one; then each with all later ones.
pub(crate) fn by_order(out: &mut impl Write, ones: &[f32], tops: &[i16]) -> io::Result<()>
    requires { (length ones.now ≡ 4097) × (length tops.now ≡ 4097) }
{
    windows(out, b"..........x.........", ones, tops)?;
    windows(out, b"........xxxxxxxxxx", ones, tops)
}
