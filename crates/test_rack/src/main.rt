// Runs rounds of racks: each refusal, the order of the causes, parts, shares, rounds one after the other,
// and the counts of wide corrections. What each has to write stands in the file stdout; it was worked out
// from document 02, requests 6 and 7, and not from what this program wrote.
#![tactic(auto)]

use std::io;
use std::io::{BufWriter, Write};

mod cases;
mod round;
mod show;
mod start;

fn all(out: &mut impl Write, ones: &[f32], tops: &[i16]) -> io::Result<()> {
    cases::by_number(out, ones, tops)?;
    cases::by_allowance(out, ones, tops)?;
    cases::by_decoder(out, ones, tops)?;
    cases::by_length(out, ones, tops)?;
    cases::by_share(out, ones, tops)?;
    cases::one_by_one(out, ones, tops)?;
    cases::by_part(out, ones, tops)?;
    cases::by_wide(out, ones)?;
    cases::by_wide_left(out, ones)?;
    cases::by_wide_round(out, ones)
}

fn main(rt: HostRuntime) -> io::Result<()> {
    let mut out = BufWriter::new(rt.alloc(), io::writer(&rt))?;
    let ones = [1.0f32; 4097];
    let tops = [32767i16; 4097];
    all(&mut out, &ones, &tops)?;
    out.flush()
}
