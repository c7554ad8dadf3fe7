// A line of the list: a name in 16 columns, the words of two arguments and of five answers in 16
// hexadecimal digits each, with a space before each word and a new line after the last.
use crate::answer::Answers;
use crate::names::{COUNT, NAMES};
use test_lines::line::{find, is_formed, value};

#[derive(Clone, Copy)]
pub struct Case {
    pub function: usize,
    pub words: u64,
    pub length: u64,
    pub answers: Answers,
}

pub(crate) fn parse(line: &[u8; 136]) -> Option<Case> {
    let function = find(line, &NAMES);
    if function >= COUNT {
        return None;
    }
    if !is_formed(line, 7) {
        return None;
    }
    Some(Case {
        function,
        words: value(line, 17),
        length: value(line, 34),
        answers: Answers {
            code: value(line, 51),
            lengths: value(line, 68),
            first: value(line, 85),
            last: value(line, 102),
            left: value(line, 119),
        },
    })
}
