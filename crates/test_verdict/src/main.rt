// The verdict at each pair of a frequency and an amplitude, at the ends of both ranges and their
// neighbours, and beside it whether the encoder takes that frequency. What is to be written stands in the
// file stdout; it was worked out from document 02, request 5, by exact fractions.
#![tactic(auto)]

use encoder_record::encode::StereoEncode;
use std::io;
use std::io::{BufWriter, Write};
use test_words::words::{f32_of, f64_of};

fn verdict(out: &mut impl Write, frequency: f64, amplitude: f32) -> io::Result<()> {
    if verdict::on_air(frequency, amplitude) {
        write!(out, " yes")
    } else {
        write!(out, " no")
    }
}

// The f32 below 0.08, that nearest to it, and the one above it; then 0.09.
fn lower_end(out: &mut impl Write, frequency: f64) -> io::Result<()> {
    verdict(out, frequency, f32_of(0x3DA3_D709))?;
    verdict(out, frequency, f32_of(0x3DA3_D70A))?;
    verdict(out, frequency, f32_of(0x3DA3_D70B))?;
    verdict(out, frequency, 0.09)
}

// The f32 below 0.1, that nearest to it, and the one above it.
fn upper_end(out: &mut impl Write, frequency: f64) -> io::Result<()> {
    verdict(out, frequency, f32_of(0x3DCC_CCCC))?;
    verdict(out, frequency, f32_of(0x3DCC_CCCD))?;
    verdict(out, frequency, f32_of(0x3DCC_CCCE))
}

// -0.09, 0, infinity and NaN.
fn no_amplitude(out: &mut impl Write, frequency: f64) -> io::Result<()> {
    verdict(out, frequency, -0.09)?;
    verdict(out, frequency, 0.0)?;
    verdict(out, frequency, f32_of(0x7F80_0000))?;
    verdict(out, frequency, 0.0 / 0.0)
}

fn encoder(out: &mut impl Write, frequency: f64) -> io::Result<()> {
    match StereoEncode::new(frequency, 0.9, 0.09, 192000.0) {
        Ok(_) => write!(out, " made"),
        Err(refusal) => write!(out, " refused by {}", refusal.number()),
    }
}

fn at(out: &mut impl Write, name: &str, frequency: f64) -> io::Result<()> {
    write!(out, "{name}")?;
    lower_end(out, frequency)?;
    upper_end(out, frequency)?;
    no_amplitude(out, frequency)?;
    encoder(out, frequency)?;
    writeln!(out)
}

fn ends(out: &mut impl Write) -> io::Result<()> {
    at(out, "below 18998:", f64_of(0x40D2_8D7F_FFFF_FFFF))?;
    at(out, "18998:", f64_of(0x40D2_8D80_0000_0000))?;
    at(out, "above 18998:", f64_of(0x40D2_8D80_0000_0001))?;
    at(out, "19000:", 19000.0)?;
    at(out, "below 19002:", f64_of(0x40D2_8E7F_FFFF_FFFF))?;
    at(out, "19002:", f64_of(0x40D2_8E80_0000_0000))?;
    at(out, "above 19002:", f64_of(0x40D2_8E80_0000_0001))
}

// Frequencies that the encoder takes, and others, none of which may go on air.
fn elsewhere(out: &mut impl Write) -> io::Result<()> {
    at(out, "below 18000:", f64_of(0x40D1_93FF_FFFF_FFFF))?;
    at(out, "18000:", 18000.0)?;
    at(out, "18500:", 18500.0)?;
    at(out, "20000:", 20000.0)?;
    at(out, "above 20000:", f64_of(0x40D3_8800_0000_0001))?;
    at(out, "17998:", 17998.0)?;
    at(out, "0:", 0.0)?;
    at(out, "-19000:", -19000.0)?;
    at(out, "infinity:", f64_of(0x7FF0_0000_0000_0000))?;
    at(out, "-infinity:", f64_of(0xFFF0_0000_0000_0000))?;
    at(out, "NaN:", 0.0 / 0.0)
}

fn main(rt: HostRuntime) -> io::Result<()> {
    let mut out = BufWriter::new(rt.alloc(), io::writer(&rt))?;
    ends(&mut out)?;
    elsewhere(&mut out)?;
    out.flush()
}
