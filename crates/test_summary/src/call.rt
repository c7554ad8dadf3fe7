// A call in both formats, and what it leaves. Each output has seven places, which hold 9 before,
// and of which a part is lent; all are shown.
ghost use Rattle.std.specs.Prelude.{◌≤◌, length};

use crate::show;
use counted::answer_of;
use std::io;
use std::io::Write;
use summary::SummarizedF32;
use summary_q15::SummarizedQ15;
use test_words::words::f32_of;

// Decoder and summary of both formats, as the call before left them.
#[derive(Clone, Copy)]
pub(crate) struct Both {
    pub(crate) f: SummarizedF32,
    pub(crate) q: SummarizedQ15,
}

// The lengths of all that is lent beside the table and the first input.
#[derive(Clone, Copy)]
pub(crate) struct Lengths {
    pub(crate) pilot: usize,
    pub(crate) sum: usize,
    pub(crate) difference: usize,
    pub(crate) stereo: usize,
    pub(crate) mono: usize,
    pub(crate) changes: usize,
    pub(crate) magnitude: usize,
}

// A letter of a script, or one that stands for nothing.
fn letter(script: &[u8], k: usize) -> u8 {
    if k < script.len() { script[k] } else { b' ' }
}

// A script has two letters for each sample, first the pilot: s gives stereo, m mono, k keeps; any
// other is a NaN, and keeps too.
fn pilot_f32(c: u8) -> f32 {
    match c {
        b's' => 1.0,
        b'm' => 0.0,
        b'k' => 0.75,
        _ => 0.0 / 0.0,
    }
}

fn pilot_q15(c: u8) -> i16 {
    match c {
        b's' => 32767,
        b'm' => 0,
        _ => 12288,
    }
}

// Then the mpx, which is the difference in stereo.
fn mpx_f32(c: u8) -> f32 {
    match c {
        b'0' => 0.0,
        b'1' => 1.0,
        b'2' => 2.0,
        b'3' => 3.0,
        b'-' => -3.0,
        b'z' => -0.0,
        b'i' => f32_of(0x7F80_0000),
        b'j' => f32_of(0xFF80_0000),
        _ => 0.0 / 0.0,
    }
}

fn mpx_q15(c: u8) -> i16 {
    match c {
        b'0' => 0,
        b'1' => 1,
        b'2' => 2,
        b'3' => 3,
        b'-' => -3,
        _ => -32768,
    }
}

fn fill_f32(script: &[u8], pilot: &mut [f32; 7], mpx: &mut [f32; 7]) {
    for i in 0..7 {
        pilot[i] = pilot_f32(letter(script, 2 * i));
        mpx[i] = mpx_f32(letter(script, 2 * i + 1));
    }
}

fn fill_q15(script: &[u8], pilot: &mut [i16; 7], mpx: &mut [i16; 7]) {
    for i in 0..7 {
        pilot[i] = pilot_q15(letter(script, 2 * i));
        mpx[i] = mpx_q15(letter(script, 2 * i + 1));
    }
}

fn left_f32(out: &mut impl Write, r: SummarizedF32) -> io::Result<()> {
    let a = r.answer;
    show::said(out, answer_of(a))?;
    let d = r.decoder;
    show::label(out, b" decoder")?;
    show::count(out, d.phase)?;
    show::pattern(out, d.integ)?;
    show::pattern(out, d.level)?;
    show::yes(out, d.stereo)?;
    let c = r.summary.counts;
    show::held(out, c)?;
    show::pattern(out, r.summary.magnitude)
}

fn left_q15(out: &mut impl Write, r: SummarizedQ15) -> io::Result<()> {
    let a = r.answer;
    show::said(out, a)?;
    let d = r.decoder;
    show::label(out, b" decoder")?;
    show::count(out, d.phase)?;
    show::signed(out, d.integ)?;
    show::signed(out, d.level)?;
    show::yes(out, d.stereo)?;
    let c = r.summary.counts;
    show::held(out, c)?;
    show::sample(out, r.summary.magnitude)
}

fn columns(
    out: &mut impl Write,
    stereos: &[u32; 7],
    monos: &[u32; 7],
    changes: &[u32; 7],
) -> io::Result<()> {
    show::numbers(out, b" stereo", stereos)?;
    show::numbers(out, b" mono", monos)?;
    show::numbers(out, b" changes", changes)
}

fn outputs_f32(
    out: &mut impl Write,
    magnitudes: &[f32; 7],
    sum: &[f32; 7],
    difference: &[f32; 7],
) -> io::Result<()> {
    show::patterns(out, b" magnitude", magnitudes)?;
    show::patterns(out, b" sum", sum)?;
    show::patterns(out, b" difference", difference)
}

fn outputs_q15(
    out: &mut impl Write,
    magnitudes: &[i16; 7],
    sum: &[i16; 7],
    difference: &[i16; 7],
) -> io::Result<()> {
    show::samples(out, b" magnitude", magnitudes)?;
    show::samples(out, b" sum", sum)?;
    show::samples(out, b" difference", difference)
}

// A block of n samples, with the other lengths as they are given.
fn lent_f32(
    out: &mut impl Write,
    r: SummarizedF32,
    table: &[f32],
    pilots: &[f32; 7],
    mpxs: &[f32; 7],
    n: usize,
    l: Lengths,
) -> io::Result<SummarizedF32>
    requires { ((n ≤ 7) × (l.pilot ≤ 7) × (l.sum ≤ 7) × (l.difference ≤ 7)) × ((l.stereo ≤ 7) × (l.mono ≤ 7) × (l.changes ≤ 7) × (l.magnitude ≤ 7)) }
{
    let pilot: &[f32] = pilots;
    let mpx: &[f32] = mpxs;
    let n_pilot = l.pilot;
    let n_sum = l.sum;
    let n_difference = l.difference;
    let n_stereo = l.stereo;
    let n_mono = l.mono;
    let n_changes = l.changes;
    let n_magnitude = l.magnitude;
    let mut sum = [9.0f32; 7];
    let mut difference = [9.0f32; 7];
    let mut stereos = [9u32; 7];
    let mut monos = [9u32; 7];
    let mut changes = [9u32; 7];
    let mut magnitudes = [9.0f32; 7];
    let d = r.decoder;
    let s = r.summary;
    let next = summary::block(
        d,
        s,
        table,
        &mpx[0..n],
        &pilot[0..n_pilot],
        &mut sum[0..n_sum],
        &mut difference[0..n_difference],
        &mut stereos[0..n_stereo],
        &mut monos[0..n_mono],
        &mut changes[0..n_changes],
        &mut magnitudes[0..n_magnitude],
    );
    left_f32(out, next)?;
    columns(out, &stereos, &monos, &changes)?;
    outputs_f32(out, &magnitudes, &sum, &difference)?;
    Ok(next)
}

fn lent_q15(
    out: &mut impl Write,
    r: SummarizedQ15,
    table: &[i16],
    pilots: &[i16; 7],
    mpxs: &[i16; 7],
    n: usize,
    l: Lengths,
) -> io::Result<SummarizedQ15>
    requires { ((n ≤ 7) × (l.pilot ≤ 7) × (l.sum ≤ 7) × (l.difference ≤ 7)) × ((l.stereo ≤ 7) × (l.mono ≤ 7) × (l.changes ≤ 7) × (l.magnitude ≤ 7)) }
{
    let pilot: &[i16] = pilots;
    let mpx: &[i16] = mpxs;
    let n_pilot = l.pilot;
    let n_sum = l.sum;
    let n_difference = l.difference;
    let n_stereo = l.stereo;
    let n_mono = l.mono;
    let n_changes = l.changes;
    let n_magnitude = l.magnitude;
    let mut sum = [9i16; 7];
    let mut difference = [9i16; 7];
    let mut stereos = [9u32; 7];
    let mut monos = [9u32; 7];
    let mut changes = [9u32; 7];
    let mut magnitudes = [9i16; 7];
    let d = r.decoder;
    let s = r.summary;
    let next = summary_q15::block(
        d,
        s,
        table,
        &mpx[0..n],
        &pilot[0..n_pilot],
        &mut sum[0..n_sum],
        &mut difference[0..n_difference],
        &mut stereos[0..n_stereo],
        &mut monos[0..n_mono],
        &mut changes[0..n_changes],
        &mut magnitudes[0..n_magnitude],
    );
    left_q15(out, next)?;
    columns(out, &stereos, &monos, &changes)?;
    outputs_q15(out, &magnitudes, &sum, &difference)?;
    Ok(next)
}

fn run_f32(
    out: &mut impl Write,
    r: SummarizedF32,
    table: &[f32],
    script: &[u8],
    l: Lengths,
) -> io::Result<SummarizedF32>
    requires { ((length script.now ≤ 14) × (l.pilot ≤ 7) × (l.sum ≤ 7) × (l.difference ≤ 7)) × ((l.stereo ≤ 7) × (l.mono ≤ 7) × (l.changes ≤ 7) × (l.magnitude ≤ 7)) }
{
    let mut pilot = [0.0f32; 7];
    let mut mpx = [0.0f32; 7];
    fill_f32(script, &mut pilot, &mut mpx);
    lent_f32(out, r, table, &pilot, &mpx, script.len() / 2, l)
}

fn run_q15(
    out: &mut impl Write,
    r: SummarizedQ15,
    table: &[i16],
    script: &[u8],
    l: Lengths,
) -> io::Result<SummarizedQ15>
    requires { ((length script.now ≤ 14) × (l.pilot ≤ 7) × (l.sum ≤ 7) × (l.difference ≤ 7)) × ((l.stereo ≤ 7) × (l.mono ≤ 7) × (l.changes ≤ 7) × (l.magnitude ≤ 7)) }
{
    let mut pilot = [0i16; 7];
    let mut mpx = [0i16; 7];
    fill_q15(script, &mut pilot, &mut mpx);
    lent_q15(out, r, table, &pilot, &mpx, script.len() / 2, l)
}

// A line for each format.
pub(crate) fn run(
    out: &mut impl Write,
    b: Both,
    name: &[u8],
    script: &[u8],
    ones: &[f32],
    tops: &[i16],
    l: Lengths,
) -> io::Result<Both>
    requires { ((length script.now ≤ 14) × (l.pilot ≤ 7) × (l.sum ≤ 7) × (l.difference ≤ 7)) × ((l.stereo ≤ 7) × (l.mono ≤ 7) × (l.changes ≤ 7) × (l.magnitude ≤ 7)) }
{
    let r = b.f;
    let t = b.q;
    show::label(out, name)?;
    show::label(out, b" f32")?;
    let f = run_f32(out, r, ones, script, l)?;
    show::label(out, b"\n")?;
    show::label(out, name)?;
    show::label(out, b" Q15")?;
    let q = run_q15(out, t, tops, script, l)?;
    show::label(out, b"\n")?;
    Ok(Both { f, q })
}

// Lengths that fit n samples, with this many periods that end.
pub(crate) fn fitting(n: usize, places: usize) -> Lengths
    requires { (n ≤ 7) × (places ≤ 7) }
    ensures { ((result.pilot ≤ 7) × (result.sum ≤ 7) × (result.difference ≤ 7)) × ((result.stereo ≤ 7) × (result.mono ≤ 7) × (result.changes ≤ 7) × (result.magnitude ≤ 7)) }
{
    Lengths {
        pilot: n,
        sum: n,
        difference: n,
        stereo: places,
        mono: places,
        changes: places,
        magnitude: places,
    }
}

// A block by its script.
pub(crate) fn block(
    out: &mut impl Write,
    b: Both,
    script: &[u8],
    ones: &[f32],
    tops: &[i16],
    places: usize,
) -> io::Result<Both>
    requires { (length script.now ≤ 14) × (places ≤ 7) }
{
    run(
        out,
        b,
        script,
        script,
        ones,
        tops,
        fitting(script.len() / 2, places),
    )
}
