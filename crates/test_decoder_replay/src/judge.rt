// Reads the list line by line and judges each: a call agrees where both decoders answer the line.
use crate::desk::Desk;
use crate::line::read;
use crate::names;
use std::io;
use std::io::{Read, Write};
use test_tally::tally::Tally;

// One count more, of a call that both answered or not.
fn counted(
    out: &mut impl Write,
    t: Tally,
    line: &[u8; 306],
    name: usize,
    agree: bool,
) -> io::Result<Tally> {
    if agree {
        return Ok(test_tally::tally::agree(t, name));
    }
    test_tally::tally::differ(out, t, line, 0)
}

// The desk with another count.
fn at(desk: Desk, tally: Tally) -> Desk {
    let float = desk.float;
    let fixed = desk.fixed;
    Desk {
        tally,
        float,
        fixed,
    }
}

fn called(
    out: &mut impl Write,
    desk: Desk,
    line: &[u8; 306],
    name: usize,
    w: &[u64; 17],
) -> io::Result<Desk> {
    let t = desk.tally;
    let old_float = desk.float;
    let old_fixed = desk.fixed;
    if name < names::NEW_Q15 {
        let float = crate::session_f32::both(old_float, name, w);
        return Ok(Desk {
            tally: counted(out, t, line, name, float.agree)?,
            float,
            fixed: old_fixed,
        });
    }
    let fixed = crate::session_q15::both(old_fixed, name, w);
    Ok(Desk {
        tally: counted(out, t, line, name, fixed.agree)?,
        float: old_float,
        fixed,
    })
}

fn judge(out: &mut impl Write, desk: Desk, line: &[u8; 306]) -> io::Result<Desk> {
    let name = test_lines::line::find(line, &names::NAMES);
    let found = read(line);
    let w = found.w;
    if (name >= names::COUNT) | !found.good {
        let t = desk.tally;
        return Ok(at(desk, test_tally::tally::refuse(out, t, line)?));
    }
    called(out, desk, line, name, &w)
}

// Reads a line and judges it. A line that the file cuts short is malformed.
pub(crate) fn next(list: &mut impl Read, out: &mut impl Write, desk: Desk) -> io::Result<Desk> {
    let mut line = [b' '; 306];
    let n = test_lines::list::read_full(list, &mut line)?;
    if n == 306 {
        return judge(out, desk, &line);
    }
    let mut t = desk.tally;
    if n > 0 {
        t = test_tally::tally::refuse(out, t, &line)?;
    }
    Ok(at(desk, test_tally::tally::end(t)))
}
