// A line of a list: a name in 16 columns, then words in 16 hexadecimal digits each.
ghost use Rattle.std.specs.Prelude.{◌≡◌};
ghost use Rattle.test_lines.specs.Columns.{digit_of, word_at, value_in, is_word, has_at, formed_of, starts_with, find_of};

// The value of a hexadecimal digit, or 16 for another byte.
fn digit(c: u8) -> u64
    ensures { result ≡ digit_of c }
{
    if (c >= b'0') & (c <= b'9') {
        return (c - b'0') as u64;
    }
    if (c >= b'a') & (c <= b'f') {
        return 10 + (c - b'a') as u64;
    }
    16
}

// The word whose 16 digits begin at a column.
fn word(line: &[u8], at: usize) -> Option<u64>
    ensures { result ≡ word_at line.now at }
{
    if line.len() < 16 {
        return None;
    }
    if at > line.len() - 16 {
        return None;
    }
    let mut value: u64 = 0;
    for i in 0..16 {
        let d = digit(line[at + i]);
        if d > 15 {
            return None;
        }
        value = value * 16 + d;
    }
    Some(value)
}

// Whether the byte at a column is the one that has to be there.
fn has(line: &[u8], at: usize, byte: u8) -> bool
    ensures { result ≡ has_at line.now at byte }
{
    if at < line.len() {
        line[at] == byte
    } else {
        false
    }
}

fn is_word(line: &[u8], at: usize) -> bool
    ensures { result ≡ is_word (word_at line.now at) }
{
    word(line, at).is_some()
}

// The word at a column, or 0 where there is none.
pub fn value(line: &[u8], at: usize) -> u64
    ensures { result ≡ value_in (word_at line.now at) }
{
    word(line, at).unwrap_or(0)
}

// Whether so many words follow the name, with a space before each and a new line after the last.
pub fn is_formed(line: &[u8], count: usize) -> bool
    ensures { result ≡ formed_of line.now count }
{
    let mut at = 16usize;
    for _k in 0..count {
        if !(has(line, at, b' ') & is_word(line, at + 1)) {
            return false;
        }
        at += 17;
    }
    has(line, at, b'\n')
}

// Whether a line begins with a name of any length.
fn starts(line: &[u8], name: &[u8]) -> bool
    ensures { result ≡ starts_with line.now name.now }
{
    if line.len() < name.len() {
        return false;
    }
    for i in 0..name.len() {
        if line[i] != name[i] {
            return false;
        }
    }
    true
}

// The number of the name with which a line begins, of names in 16 columns each, or how many names
// there are where it begins with none.
pub fn find(line: &[u8], names: &[u8]) -> usize
    ensures { result ≡ find_of line.now names.now }
{
    let count = names.len() / 16;
    for k in 0..count {
        let from = 16 * k;
        let to = from + 16;
        if starts(line, &names[from..to]) {
            return k;
        }
    }
    count
}
