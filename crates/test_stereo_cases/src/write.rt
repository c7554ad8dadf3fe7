// A line of the cases, piece by piece.
use std::io;
use std::io::Write;

pub(crate) fn number(out: &mut impl Write, n: u64) -> io::Result<()> {
    write!(out, " {n}")
}

pub(crate) fn line(out: &mut impl Write, name: &str) -> io::Result<()> {
    write!(out, "{name}")
}

pub(crate) fn done(out: &mut impl Write) -> io::Result<()> {
    writeln!(out)
}

pub(crate) fn refused(out: &mut impl Write, n: u32) -> io::Result<()> {
    write!(out, " refused by")?;
    number(out, n as u64)
}
