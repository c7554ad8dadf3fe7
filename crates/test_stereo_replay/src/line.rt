// A line of the list: a name in 16 columns, the words of five arguments and of the answer in 16
// hexadecimal digits each, with a space before each word and a new line after the last.
use crate::names::{COUNT, NAMES};
use test_lines::line::{find, is_formed, value};

#[derive(Clone, Copy)]
pub struct Case {
    pub function: usize,
    pub a: u64,
    pub b: u64,
    pub c: u64,
    pub d: u64,
    pub e: u64,
    pub answer: u64,
}

pub(crate) fn parse(line: &[u8; 119]) -> Option<Case> {
    let function = find(line, &NAMES);
    if function >= COUNT {
        return None;
    }
    if !is_formed(line, 6) {
        return None;
    }
    Some(Case {
        function,
        a: value(line, 17),
        b: value(line, 34),
        c: value(line, 51),
        d: value(line, 68),
        e: value(line, 85),
        answer: value(line, 102),
    })
}
