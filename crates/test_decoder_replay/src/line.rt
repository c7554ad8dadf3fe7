// A line of the list: a name in 16 columns, five arguments and twelve answers in words of 16
// hexadecimal digits, with a space before each word and a new line after the last.
use test_lines::line::{is_formed, value};

#[derive(Clone, Copy)]
pub struct Words {
    // the arguments, then the answers
    pub w: [u64; 17],
    pub good: bool,
}

// The words of a line, 0 for what is none, and whether each of them is one.
pub(crate) fn read(line: &[u8; 306]) -> Words {
    let mut out = Words {
        w: [0u64; 17],
        good: is_formed(line, 17),
    };
    for k in 0..17 {
        out.w[k] = value(line, 17 * k + 17);
    }
    out
}
