// Replays the list of the original's answers, data/numbers.txt, through the crate numbers, and
// writes how many lines of each function agree. oracle/README.md says what a line holds and how
// the list was made.
#![tactic(auto)]

use std::fs::File;
use std::io;
use std::io::{BufReader, BufWriter, Read, Write};
use test_tally::tally::Tally;

mod answer;
mod line;
mod names;
mod tally;

// A proved loop has to end, and nothing says that a file does: so the loop has as many turns as no
// run uses up.
fn replay(list: &mut impl Read, out: &mut impl Write) -> io::Result<Tally> {
    let mut t = test_tally::tally::fresh();
    for _ in 0..u64::MAX {
        t = tally::next(list, out, t)?;
        if t.ended {
            break;
        }
    }
    Ok(t)
}

fn main(rt: HostRuntime) -> io::Result<()> {
    let mut out = BufWriter::new(rt.alloc(), io::writer(&rt))?;
    let opened = File::open(&rt, "numbers.txt");
    if opened.is_err() {
        out.write_all(b"the list cannot be opened\n")?;
    }
    let mut list = BufReader::new(rt.alloc(), opened?)?;
    let t = replay(&mut list, &mut out)?;
    test_tally::tally::report(&mut out, t, &names::NAMES)?;
    out.flush()
}
