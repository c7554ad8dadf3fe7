// Reads the list line by line and judges each.
use std::io;
use std::io::{Read, Write};
use test_tally::tally::Tally;

// The tally after one line.
fn judge(
    out: &mut impl Write,
    cos: &[f32],
    cos_q15: &[i16],
    t: Tally,
    line: &[u8; 119],
) -> io::Result<Tally> {
    let read = crate::line::parse(line);
    match read {
        None => test_tally::tally::refuse(out, t, line),
        Some(case) => {
            let got = crate::answer::answer(cos, cos_q15, case);
            if got == case.answer {
                Ok(test_tally::tally::agree(t, case.function))
            } else {
                test_tally::tally::differ(out, t, line, got)
            }
        }
    }
}

// Reads a line and judges it. A line that the file cuts short is malformed.
pub(crate) fn next(
    list: &mut impl Read,
    out: &mut impl Write,
    cos: &[f32],
    cos_q15: &[i16],
    t: Tally,
) -> io::Result<Tally> {
    let mut line = [b' '; 119];
    let n = test_lines::list::read_full(list, &mut line)?;
    if n == 119 {
        return judge(out, cos, cos_q15, t, &line);
    }
    let mut last = t;
    if n > 0 {
        last = test_tally::tally::refuse(out, t, &line)?;
    }
    Ok(test_tally::tally::end(last))
}
