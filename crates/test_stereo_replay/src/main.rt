// Replays the list of the original's answers, data/stereo.txt, through lookup, correction,
// oscillator, matrix and encoders, and writes how many lines of each function agree.
// oracle/README.md says what a line holds and how the list was made.
#![tactic(auto)]

use std::fs::File;
use std::io;
use std::io::{BufReader, BufWriter, Read, Write};
use test_tally::tally::Tally;

mod answer;
mod line;
mod names;
mod seeds;
mod tally;

// A proved loop has to end, and nothing says that a file does: so the loop has as many turns as no
// run uses up.
fn replay(
    list: &mut impl Read,
    out: &mut impl Write,
    cos: &[f32],
    cos_q15: &[i16],
) -> io::Result<Tally> {
    let mut t = test_tally::tally::fresh();
    for _ in 0..u64::MAX {
        t = tally::next(list, out, cos, cos_q15, t)?;
        if t.ended {
            break;
        }
    }
    Ok(t)
}

// Replays the opened list and reports.
fn run(list: &mut impl Read, out: &mut impl Write) -> io::Result<()> {
    let mut cos = [0.0f32; 4097];
    test_samples::fill_f32(seeds::TABLE_F32, &mut cos);
    let mut cos_q15 = [0i16; 4097];
    test_samples::fill_q15(seeds::TABLE_Q15, &mut cos_q15);
    let t = replay(list, out, &cos, &cos_q15)?;
    test_tally::tally::report(out, t, &names::NAMES)?;
    Ok(())
}

fn main(rt: HostRuntime) -> io::Result<()> {
    let mut out = BufWriter::new(rt.alloc(), io::writer(&rt))?;
    let opened = File::open(&rt, "stereo.txt");
    if opened.is_err() {
        out.write_all(b"the list cannot be opened\n")?;
    }
    let mut list = BufReader::new(rt.alloc(), opened?)?;
    run(&mut list, &mut out)?;
    out.flush()
}
