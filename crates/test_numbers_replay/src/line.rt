// A line of the list: a name in 16 columns, the words of two arguments and of the answer in 16
// hexadecimal digits each, with a space before each word and a new line after the last.
use crate::names::{COUNT, NAMES};
use test_lines::line::{find, is_formed, value};

#[derive(Clone, Copy)]
pub struct Case {
    pub function: usize,
    pub a: u64,
    pub b: u64,
    pub answer: u64,
}

pub(crate) fn parse(line: &[u8; 68]) -> Option<Case> {
    let function = find(line, &NAMES);
    if function >= COUNT {
        return None;
    }
    if !is_formed(line, 3) {
        return None;
    }
    Some(Case {
        function,
        a: value(line, 17),
        b: value(line, 34),
        answer: value(line, 51),
    })
}
