// Compares the check of every word with the standard's generator matrix, then replays the list of a model's
// answers, data/rds.txt, through the group former, and writes how many agree.
// oracle/README.md says what a line holds and how the list was made.
#![tactic(auto)]

use std::fs::File;
use std::io;
use std::io::{BufReader, BufWriter, Read, Write};

mod answer;
mod desk;
mod line;
mod matrix;
mod names;

// A proved loop has to end, and nothing says that a file does: so the loop has as many turns as no
// run uses up.
fn replay(list: &mut impl Read, out: &mut impl Write) -> io::Result<desk::Desk> {
    let mut d = desk::fresh();
    for _ in 0..u64::MAX {
        d = desk::next(list, out, d)?;
        let t = d.tally;
        if t.ended {
            break;
        }
    }
    Ok(d)
}

fn main(rt: HostRuntime) -> io::Result<()> {
    let mut out = BufWriter::new(rt.alloc(), io::writer(&rt))?;
    matrix::run(&mut out)?;
    let opened = File::open(&rt, "rds.txt");
    if opened.is_err() {
        out.write_all(b"the list cannot be opened\n")?;
    }
    let mut list = BufReader::new(rt.alloc(), opened?)?;
    let d = replay(&mut list, &mut out)?;
    let t = d.tally;
    test_tally::tally::report(&mut out, t, &names::NAMES)?;
    out.flush()
}
