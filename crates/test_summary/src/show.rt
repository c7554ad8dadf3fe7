// What the cases write.
use answers::answer::{Refusal, code_of};
use std::io;
use std::io::Write;
use summary_counts::Counts;

pub(crate) fn label(out: &mut impl Write, text: &[u8]) -> io::Result<()> {
    out.write_all(text)
}

fn number(out: &mut impl Write, n: u64) -> io::Result<()> {
    write!(out, " {n}")
}

pub(crate) fn count(out: &mut impl Write, n: u32) -> io::Result<()> {
    number(out, n as u64)
}

pub(crate) fn yes(out: &mut impl Write, b: bool) -> io::Result<()> {
    number(out, test_words::words::word_bool(b))
}

// A float by its bit pattern.
pub(crate) fn pattern(out: &mut impl Write, x: f32) -> io::Result<()> {
    number(out, test_words::words::word_f32(x))
}

// A word in two's complement.
fn twos(out: &mut impl Write, w: u64) -> io::Result<()> {
    if w >= 9223372036854775808 {
        write!(out, " -{}", std::num::wrapping_sub_u64(0, w))
    } else {
        number(out, w)
    }
}

pub(crate) fn signed(out: &mut impl Write, z: i64) -> io::Result<()> {
    twos(out, test_words::words::word_i64(z))
}

pub(crate) fn sample(out: &mut impl Write, x: i16) -> io::Result<()> {
    twos(out, test_words::words::word_i16(x))
}

// A block's answer, with its lengths.
pub(crate) fn said(out: &mut impl Write, a: Result<(), Refusal>) -> io::Result<()> {
    let c = code_of(a);
    if c.code == 0 {
        return write!(out, ": accepted");
    }
    write!(out, ": refused by")?;
    number(out, (c.code % 100) as u64)?;
    number(out, c.expected as u64)?;
    number(out, c.got as u64)
}

// What a summary holds beside its magnitude.
pub(crate) fn held(out: &mut impl Write, c: Counts) -> io::Result<()> {
    write!(out, " held")?;
    count(out, c.period)?;
    count(out, c.stereo)?;
    count(out, c.mono)?;
    count(out, c.changes)?;
    yes(out, c.before)
}

// A place of an output: a dot where it still holds 9, which no case writes.
fn place_u32(out: &mut impl Write, n: u32) -> io::Result<()> {
    if n == 9 {
        label(out, b" .")
    } else {
        count(out, n)
    }
}

fn place_f32(out: &mut impl Write, x: f32) -> io::Result<()> {
    if x == 9.0 {
        label(out, b" .")
    } else {
        pattern(out, x)
    }
}

fn place_i16(out: &mut impl Write, x: i16) -> io::Result<()> {
    if x == 9 {
        label(out, b" .")
    } else {
        sample(out, x)
    }
}

// An output, all of its places.
pub(crate) fn numbers(out: &mut impl Write, name: &[u8], x: &[u32]) -> io::Result<()> {
    label(out, name)?;
    for &v in x {
        place_u32(out, v)?;
    }
    Ok(())
}

pub(crate) fn patterns(out: &mut impl Write, name: &[u8], x: &[f32]) -> io::Result<()> {
    label(out, name)?;
    for &v in x {
        place_f32(out, v)?;
    }
    Ok(())
}

pub(crate) fn samples(out: &mut impl Write, name: &[u8], x: &[i16]) -> io::Result<()> {
    label(out, name)?;
    for &v in x {
        place_i16(out, v)?;
    }
    Ok(())
}
