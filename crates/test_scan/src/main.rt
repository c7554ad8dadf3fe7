// Scans blocks with one sample that is not finite, at each place, blocks of such samples alone, and finite
// ones. What is to be written stands in the file stdout; it was worked out from document 02, request 3, by
// counting places.
#![tactic(auto)]

use std::io;
use std::io::{BufWriter, Write};
use test_words::words::f32_of;

// Whether all are finite, and how many samples were read.
fn answer(out: &mut impl Write, pilot: &[f32]) -> io::Result<()> {
    let s = pilot_scan::scan(pilot);
    if s.finite {
        write!(out, " yes {}", s.read)
    } else {
        write!(out, " no {}", s.read)
    }
}

// A line: the block as it is, and then with x at each place in turn.
fn each(out: &mut impl Write, x: f32, block: &mut [f32]) -> io::Result<()> {
    write!(out, "{} samples:", block.len())?;
    answer(out, block)?;
    for k in 0..block.len() {
        let kept = block[k];
        block[k] = x;
        let written = answer(out, block);
        block[k] = kept;
        written?;
    }
    writeln!(out)
}

// The blocks' lengths, x among samples of the value y.
fn lengths(out: &mut impl Write, x: f32, y: f32) -> io::Result<()> {
    let mut none = [y; 1];
    each(out, x, &mut none[0..0])?;
    let mut one = [y; 1];
    each(out, x, &mut one)?;
    let mut two = [y; 2];
    each(out, x, &mut two)?;
    let mut b63 = [y; 63];
    each(out, x, &mut b63)?;
    let mut b64 = [y; 64];
    each(out, x, &mut b64)?;
    let mut b65 = [y; 65];
    each(out, x, &mut b65)
}

fn title(out: &mut impl Write, text: &str) -> io::Result<()> {
    writeln!(out, "{text}")
}

fn main(rt: HostRuntime) -> io::Result<()> {
    let mut out = BufWriter::new(rt.alloc(), io::writer(&rt))?;
    let infinity = f32_of(0x7F80_0000);
    let lowest = f32_of(0xFF7F_FFFF);
    let nan = 0.0f32 / 0.0f32;
    title(&mut out, "infinity at each place")?;
    lengths(&mut out, infinity, 1.0)?;
    title(&mut out, "minus infinity at each place")?;
    lengths(&mut out, 0.0 - infinity, 1.0)?;
    title(&mut out, "NaN at each place")?;
    lengths(&mut out, nan, lowest)?;
    title(&mut out, "infinity at each place among NaNs")?;
    lengths(&mut out, infinity, nan)?;
    title(&mut out, "the lowest float at each place among the largest")?;
    lengths(&mut out, lowest, 0.0 - lowest)?;
    out.flush()
}
