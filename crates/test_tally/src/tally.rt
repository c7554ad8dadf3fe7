// How many lines agreed, differed or could not be read, and what is written of them. An error comes
// from the writer alone, and leaves the tally that was passed as it was.
ghost use Rattle.std.specs.Prelude.{◌≡◌, true, IfOk, OnOk, OnErr};
ghost use Rattle.test_tally.specs.Tallies.{fresh_of, agreed_at, agree_of, differ_of, refuse_of, end_of, flawless, shown_at, malformed_text, difference_text, count_text, sums_text, report_text};
ghost use Rattle.std.specs.Io.KnownBytes.{Appends};
ghost use Rattle.test_tally.specs.Tallies.{more as Tallies·more};

use std::io;
use std::io::Write;

#[derive(Clone, Copy)]
pub struct Tally {
    // for each function; a list has at most 32
    pub agreed: [u64; 32],
    pub all_agreed: u64,
    pub differed: u64,
    pub malformed: u64,
    // whether the list is at its end
    pub ended: bool,
}

pub fn fresh() -> Tally
    ensures { result ≡ fresh_of }
{
    Tally {
        agreed: [0u64; 32],
        all_agreed: 0,
        differed: 0,
        malformed: 0,
        ended: false,
    }
}

// One more. The count does not reach the end of a u64.
fn more(n: u64) -> u64
    ensures { result ≡ Tallies·more n }
{
    std::num::wrapping_add_u64(n, 1)
}

pub fn agree(t: Tally, function: usize) -> Tally
    ensures { result ≡ agree_of t function }
{
    let mut out = t;
    out.all_agreed = more(out.all_agreed);
    if function < 32 {
        out.agreed[function] = more(out.agreed[function]);
        return out;
    }
    out
}

// After this many lines that are wrong, the others are counted and not shown.
const SHOWN: u64 = 20;

fn shows(t: Tally) -> bool
    ensures { result ≡ shown_at t }
{
    std::num::wrapping_add_u64(t.differed, t.malformed) < SHOWN
}

fn show_difference<W: Write>(out: &mut W, t: Tally, line: &[u8], got: u64) -> io::Result<()>
    ensures ok { OnOk result (Appends (W.contents out.old) (W.contents out.new) (difference_text t line.now got)) }
    ensures err { OnErr result (shown_at t ≡ true) }
{
    if shows(t) {
        out.write_all(b"differs: ")?;
        out.write_all(line)?;
        writeln!(out, "    got: {got:016x}")?;
    }
    Ok(())
}

// Writes the line, if not too many were wrong before; only then can it fail.
pub fn differ<W: Write>(out: &mut W, t: Tally, line: &[u8], got: u64) -> io::Result<Tally>
    ensures ok { IfOk result (λ next. next ≡ differ_of t) }
    ensures written { OnOk result (Appends (W.contents out.old) (W.contents out.new) (difference_text t line.now got)) }
    ensures err { OnErr result (shown_at t ≡ true) }
{
    show_difference(out, t, line, got)?;
    let mut next = t;
    next.differed = more(next.differed);
    Ok(next)
}

fn show_malformed<W: Write>(out: &mut W, t: Tally, line: &[u8]) -> io::Result<()>
    ensures ok { OnOk result (Appends (W.contents out.old) (W.contents out.new) (malformed_text t line.now)) }
    ensures err { OnErr result (shown_at t ≡ true) }
{
    if shows(t) {
        out.write_all(b"malformed: ")?;
        out.write_all(line)?;
        out.write_all(b"\n")?;
    }
    Ok(())
}

// Writes the line, if not too many were wrong before; only then can it fail.
pub fn refuse<W: Write>(out: &mut W, t: Tally, line: &[u8]) -> io::Result<Tally>
    ensures ok { IfOk result (λ next. next ≡ refuse_of t) }
    ensures written { OnOk result (Appends (W.contents out.old) (W.contents out.new) (malformed_text t line.now)) }
    ensures err { OnErr result (shown_at t ≡ true) }
{
    show_malformed(out, t, line)?;
    let mut next = t;
    next.malformed = more(next.malformed);
    Ok(next)
}

pub fn end(t: Tally) -> Tally
    ensures { result ≡ end_of t }
{
    let mut out = t;
    out.ended = true;
    out
}

// How many lines of a function agreed.
fn agreed(t: Tally, k: usize) -> u64
    ensures { result ≡ agreed_at t k }
{
    if k < 32 { t.agreed[k] } else { 0 }
}

fn write_count<W: Write>(out: &mut W, name: &[u8], n: u64) -> io::Result<()>
    ensures { OnOk result (Appends (W.contents out.old) (W.contents out.new) (count_text name.now n)) }
{
    out.write_all(name)?;
    writeln!(out, " {n}")
}

// Writes the sums, and answers whether no line differed and none was malformed.
pub fn report_all<W: Write>(out: &mut W, t: Tally) -> io::Result<bool>
    ensures value { IfOk result (λ good. good ≡ flawless t) }
    ensures written { OnOk result (Appends (W.contents out.old) (W.contents out.new) (sums_text t)) }
{
    writeln!(
        out,
        "{} lines agree, {} differ, {} malformed",
        t.all_agreed, t.differed, t.malformed
    )?;
    Ok((t.differed == 0) & (t.malformed == 0))
}

// Writes the lines of all functions, whose names stand in 16 columns each, and the sums.
pub fn report<W: Write>(out: &mut W, t: Tally, names: &[u8]) -> io::Result<bool>
    ensures value { IfOk result (λ good. good ≡ flawless t) }
    ensures written { OnOk result (Appends (W.contents out.old) (W.contents out.new) (report_text t names.now)) }
{
    let count = names.len() / 16;
    for k in 0..count {
        let from = 16 * k;
        let to = from + 16;
        write_count(out, &names[from..to], agreed(t, k))?;
    }
    report_all(out, t)
}
