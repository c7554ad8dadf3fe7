// What the cases write.
use answers::answer::{Refusal, code_of};
use decoder_record::pll_f32::StereoPllF32;
use decoder_record_q15::pll_q15::StereoPllQ15;
use std::io;
use std::io::Write;

pub(crate) fn label(out: &mut impl Write, text: &str) -> io::Result<()> {
    write!(out, "{text}")
}

fn number(out: &mut impl Write, n: u64) -> io::Result<()> {
    write!(out, " {n}")
}

// A round's answer, with its lengths.
pub(crate) fn said(out: &mut impl Write, a: Result<(), Refusal>) -> io::Result<()> {
    let c = code_of(a);
    if c.code == 0 {
        return write!(out, ": accepted");
    }
    write!(out, ": refused by")?;
    number(out, (c.code % 100) as u64)?;
    number(out, c.expected as u64)?;
    number(out, c.got as u64)
}

// One number for each decoder.
pub(crate) fn counts(out: &mut impl Write, name: &str, all: [usize; 8]) -> io::Result<()> {
    label(out, name)?;
    for n in all {
        number(out, n as u64)?;
    }
    Ok(())
}

// Phase and level of each decoder, the level as 0 where the last pilot was low, 1 where it was high, and as a
// dot where no sample was worked.
pub(crate) fn decoders_f32(out: &mut impl Write, all: [StereoPllF32; 8]) -> io::Result<()> {
    label(out, " decoders")?;
    for d in all {
        number(out, d.phase as u64)?;
        level_f32(out, d.level)?;
    }
    Ok(())
}

fn level_f32(out: &mut impl Write, level: f32) -> io::Result<()> {
    if level == 0.25 {
        label(out, ".")
    } else {
        high(out, level == 1.0)
    }
}

fn high(out: &mut impl Write, is: bool) -> io::Result<()> {
    if is { label(out, "s") } else { label(out, "m") }
}

pub(crate) fn decoders_q15(out: &mut impl Write, all: [StereoPllQ15; 8]) -> io::Result<()> {
    label(out, " decoders")?;
    for d in all {
        number(out, d.phase as u64)?;
        level_q15(out, d.level)?;
    }
    Ok(())
}

fn level_q15(out: &mut impl Write, level: i64) -> io::Result<()> {
    if level == 1099511627776 {
        label(out, ".")
    } else {
        high(out, level > 1099511627776)
    }
}

// An output: a dot at each place that still holds -1, which no case writes.
pub(crate) fn output_f32(out: &mut impl Write, name: &str, x: &[f32; 24]) -> io::Result<()> {
    label(out, name)?;
    for &v in x {
        place_f32(out, v)?;
    }
    Ok(())
}

fn place_f32(out: &mut impl Write, x: f32) -> io::Result<()> {
    if x == -1.0 {
        label(out, " .")
    } else {
        number(out, test_words::words::word_f32(x))
    }
}

pub(crate) fn output_q15(out: &mut impl Write, name: &str, x: &[i16; 24]) -> io::Result<()> {
    label(out, name)?;
    for &v in x {
        place_q15(out, v)?;
    }
    Ok(())
}

fn place_q15(out: &mut impl Write, x: i16) -> io::Result<()> {
    if x == -1 {
        label(out, " .")
    } else {
        number(out, test_words::words::word_i16(x))
    }
}
