// What the cases write.
use answers::answer::{Refusal, code_of};
use std::io;
use std::io::Write;

pub(crate) fn label(out: &mut impl Write, text: &str) -> io::Result<()> {
    write!(out, "{text}")
}

pub(crate) fn number(out: &mut impl Write, n: u64) -> io::Result<()> {
    write!(out, " {n}")
}

// A word in two's complement.
fn twos(out: &mut impl Write, w: u64) -> io::Result<()> {
    if w >= 9223372036854775808 {
        write!(out, " -{}", std::num::wrapping_sub_u64(0, w))
    } else {
        number(out, w)
    }
}

pub(crate) fn signed(out: &mut impl Write, z: i64) -> io::Result<()> {
    twos(out, test_words::words::word_i64(z))
}

pub(crate) fn sample(out: &mut impl Write, x: i16) -> io::Result<()> {
    twos(out, test_words::words::word_i16(x))
}

pub(crate) fn done(out: &mut impl Write) -> io::Result<()> {
    writeln!(out)
}

pub(crate) fn refused(out: &mut impl Write, n: u32) -> io::Result<()> {
    write!(out, " refused by")?;
    number(out, n as u64)
}

// A block's answer, with its lengths.
pub(crate) fn said(out: &mut impl Write, a: Result<(), Refusal>) -> io::Result<()> {
    let c = code_of(a);
    if c.code == 0 {
        return write!(out, " accepted");
    }
    refused(out, c.code % 100)?;
    number(out, c.expected as u64)?;
    number(out, c.got as u64)
}
