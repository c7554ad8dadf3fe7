// A round in both formats, and what it leaves. Each flat slice is a part of 24 places, and all places of the
// outputs are shown.
ghost use Rattle.std.specs.Prelude.{◌≤◌};

use crate::{show, start};
use decoder_record::pll_f32::StereoPllF32;
use decoder_record_q15::pll_q15::StereoPllQ15;
use rack::RoundF32;
use rack_waiting::least;
use std::io;
use std::io::Write;

// A rack in both formats.
#[derive(Clone, Copy)]
pub(crate) struct Both {
    pub(crate) f: [StereoPllF32; 8],
    pub(crate) q: [StereoPllQ15; 8],
}

// A round: the number, the allowance, the table's length, where the four flat slices begin, and how long they
// are; all are cut off at what there is.
#[derive(Clone, Copy)]
pub(crate) struct Asked {
    pub(crate) number: usize,
    pub(crate) allowance: u32,
    pub(crate) table: usize,
    pub(crate) from: usize,
    pub(crate) mpx: usize,
    pub(crate) pilot: usize,
    pub(crate) sum: usize,
    pub(crate) difference: usize,
}

// Where a slice ends that begins at a place.
fn end(from: usize, n: usize) -> usize
    requires { from ≤ 24 }
    ensures { (from ≤ result) × (result ≤ 24) }
{
    from + least(n, 24 - from)
}

fn lent_f32(
    out: &mut impl Write,
    decoders: [StereoPllF32; 8],
    text: &[u8],
    table: &[f32],
    mpxs: &[f32; 24],
    pilots: &[f32; 24],
    c: Asked,
) -> io::Result<RoundF32> {
    let mpx: &[f32] = mpxs;
    let pilot: &[f32] = pilots;
    let mut sum = [-1.0f32; 24];
    let mut difference = [-1.0f32; 24];
    let from = least(c.from, 24);
    let x = end(from, c.mpx);
    let p = end(from, c.pilot);
    let y = end(from, c.sum);
    let z = end(from, c.difference);
    let waiting = start::waiting(text);
    let r = rack::round(
        decoders,
        c.number,
        c.allowance,
        waiting,
        table,
        &mpx[from..x],
        &pilot[from..p],
        &mut sum[from..y],
        &mut difference[from..z],
    );
    let said = r.answer;
    let counts = r.taken;
    let next = r.decoders;
    show::said(out, said)?;
    show::counts(out, " taken", counts)?;
    show::decoders_f32(out, next)?;
    show::output_f32(out, " sum", &sum)?;
    show::output_f32(out, " difference", &difference)?;
    Ok(r)
}

fn run_f32(
    out: &mut impl Write,
    decoders: [StereoPllF32; 8],
    text: &[u8],
    ones: &[f32],
    c: Asked,
) -> io::Result<RoundF32> {
    let mut mpx = [0.0f32; 24];
    let mut pilot = [0.0f32; 24];
    start::samples_f32(&mut mpx, &mut pilot);
    let n = least(c.table, ones.len());
    lent_f32(out, decoders, text, &ones[0..n], &mpx, &pilot, c)
}

fn lent_q15(
    out: &mut impl Write,
    decoders: [StereoPllQ15; 8],
    text: &[u8],
    table: &[i16],
    mpxs: &[i16; 24],
    pilots: &[i16; 24],
    c: Asked,
) -> io::Result<[StereoPllQ15; 8]> {
    let mpx: &[i16] = mpxs;
    let pilot: &[i16] = pilots;
    let mut sum = [-1i16; 24];
    let mut difference = [-1i16; 24];
    let from = least(c.from, 24);
    let x = end(from, c.mpx);
    let p = end(from, c.pilot);
    let y = end(from, c.sum);
    let z = end(from, c.difference);
    let waiting = start::waiting(text);
    let r = rack_q15::round(
        decoders,
        c.number,
        c.allowance,
        waiting,
        table,
        &mpx[from..x],
        &pilot[from..p],
        &mut sum[from..y],
        &mut difference[from..z],
    );
    let said = r.answer;
    let counts = r.taken;
    let next = r.decoders;
    show::said(out, said)?;
    show::counts(out, " taken", counts)?;
    show::decoders_q15(out, next)?;
    show::output_q15(out, " sum", &sum)?;
    show::output_q15(out, " difference", &difference)?;
    Ok(next)
}

fn run_q15(
    out: &mut impl Write,
    decoders: [StereoPllQ15; 8],
    text: &[u8],
    tops: &[i16],
    c: Asked,
) -> io::Result<[StereoPllQ15; 8]> {
    let mut mpx = [0i16; 24];
    let mut pilot = [0i16; 24];
    start::samples_q15(&mut mpx, &mut pilot);
    let n = least(c.table, tops.len());
    lent_q15(out, decoders, text, &tops[0..n], &mpx, &pilot, c)
}

// A line for each format; the text says what waits.
pub(crate) fn run(
    out: &mut impl Write,
    b: Both,
    name: &str,
    text: &[u8],
    ones: &[f32],
    tops: &[i16],
    c: Asked,
) -> io::Result<Both> {
    let d = b.f;
    let e = b.q;
    show::label(out, name)?;
    show::label(out, " f32")?;
    let r = run_f32(out, d, text, ones, c)?;
    let f = r.decoders;
    show::label(out, "\n")?;
    show::label(out, name)?;
    show::label(out, " Q15")?;
    let q = run_q15(out, e, text, tops, c)?;
    show::label(out, "\n")?;
    Ok(Both { f, q })
}

// A line for f32 alone, which ends with how many corrections of each decoder took the wide way.
pub(crate) fn count(
    out: &mut impl Write,
    decoders: [StereoPllF32; 8],
    name: &str,
    text: &[u8],
    ones: &[f32],
    c: Asked,
) -> io::Result<[StereoPllF32; 8]> {
    show::label(out, name)?;
    show::label(out, " f32")?;
    let r = run_f32(out, decoders, text, ones, c)?;
    let wide = r.wide;
    show::counts(out, " wide", wide)?;
    show::label(out, "\n")?;
    Ok(r.decoders)
}

// The first round of a rack, whose decoders with a u are unfit.
pub(crate) fn first(
    out: &mut impl Write,
    name: &str,
    marks: &[u8],
    text: &[u8],
    ones: &[f32],
    tops: &[i16],
    c: Asked,
) -> io::Result<()> {
    let b = Both {
        f: start::rack_f32(b""),
        q: start::rack_q15(marks),
    };
    run(out, b, name, text, ones, tops, c)?;
    Ok(())
}
