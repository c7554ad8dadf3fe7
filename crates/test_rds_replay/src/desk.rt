// Reads the list line by line and judges each. The former lives from line to line.
use crate::answer::{Answers, Called};
use crate::line::Case;
use crate::names;
use rds::former::RdsFormer;
use std::io;
use std::io::Write;
use test_tally::tally;
use test_tally::tally::Tally;

#[derive(Clone, Copy)]
pub struct Desk {
    pub tally: Tally,
    pub former: RdsFormer,
}

pub(crate) fn fresh() -> Desk {
    Desk {
        tally: tally::fresh(),
        former: RdsFormer::new(),
    }
}

fn called(former: RdsFormer, case: Case) -> Called {
    if case.function == names::NEW {
        return Called {
            answers: Answers {
                code: 0,
                lengths: 0,
                first: 0,
                last: 0,
                left: 0,
            },
            former: RdsFormer::new(),
        };
    }
    crate::answer::group(former, case.words, case.length)
}

// The exclusive-or of what was to come and what came, of all five answers: 0 where all agree.
fn difference(a: Answers, b: Answers) -> u64 {
    (a.code ^ b.code)
        | (a.lengths ^ b.lengths)
        | (a.first ^ b.first)
        | (a.last ^ b.last)
        | (a.left ^ b.left)
}

fn judge(out: &mut impl Write, d: Desk, line: &[u8; 136]) -> io::Result<Desk> {
    let t = d.tally;
    let former = d.former;
    let read = crate::line::parse(line);
    match read {
        None => Ok(Desk {
            tally: tally::refuse(out, t, line)?,
            former,
        }),
        Some(case) => {
            let c = called(former, case);
            let next = c.former;
            let came = c.answers;
            let wanted = case.answers;
            let unlike = difference(wanted, came);
            if unlike == 0 {
                Ok(Desk {
                    tally: tally::agree(t, case.function),
                    former: next,
                })
            } else {
                Ok(Desk {
                    tally: tally::differ(out, t, line, unlike)?,
                    former: next,
                })
            }
        }
    }
}

// Reads a line and judges it. A line that the file cuts short is malformed.
pub(crate) fn next(list: &mut impl io::Read, out: &mut impl Write, d: Desk) -> io::Result<Desk> {
    let mut line = [b' '; 136];
    let n = test_lines::list::read_full(list, &mut line)?;
    if n == 136 {
        return judge(out, d, &line);
    }
    let former = d.former;
    let mut t = d.tally;
    if n > 0 {
        t = tally::refuse(out, t, &line)?;
    }
    Ok(Desk {
        tally: tally::end(t),
        former,
    })
}
