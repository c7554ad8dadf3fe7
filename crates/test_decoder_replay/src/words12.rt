// The twelve words that a call answers, and digests of longer lists. A decoder's record is the
// words 1 to 11, in either format: six gains, step0, phase, integrator, level, switches.
use answers::answer::{Refusal, code_of};
use test_words::words::word_f64;

// The digest of a list of words, one word further: the list's value in base 1000003, modulo the
// largest prime below 2^32.
fn digest(h: u64, w: u64) -> u64 {
    (h % 4294967291 * 1000003 + w % 4294967291) % 4294967291
}

// The digest of an output.
pub(crate) fn digest_f32(x: &[f32; 80]) -> u64 {
    let mut h = 1u64;
    for &s in x {
        h = digest(h, test_words::words::word_f32(s));
    }
    h
}

pub(crate) fn digest_q15(x: &[i16; 80]) -> u64 {
    let mut h = 1u64;
    for &s in x {
        h = digest(h, test_words::words::word_i16(s));
    }
    h
}

// The digest of the fields that no call changes.
fn gains(r: &[u64; 12]) -> u64 {
    let mut h = r[7];
    for k in 1..7 {
        h = digest(h, r[k]);
    }
    h
}

// Both switches in a word.
pub(crate) fn switches(stereo: bool, enabled: bool) -> u64 {
    if stereo {
        if enabled { 3 } else { 2 }
    } else {
        if enabled { 1 } else { 0 }
    }
}

// What a call leaves: its answer, the outputs' digests, the record r and the read-outs.
pub(crate) fn left(
    a: Result<(), Refusal>,
    sum: u64,
    difference: u64,
    r: &[u64; 12],
    integrator: f64,
    limit: f64,
    level: f64,
) -> [u64; 12] {
    let said = code_of(a);
    [
        said.code as u64,
        said.expected as u64,
        said.got as u64,
        sum,
        difference,
        gains(r),
        r[8],
        r[9],
        r[10],
        r[11],
        word_f64(integrator),
        digest(word_f64(limit), word_f64(level)),
    ]
}

// Whether a call answers what the line has after its five arguments.
pub(crate) fn same(got: &[u64; 12], line: &[u64; 17]) -> bool {
    let mut equal = true;
    for k in 0..12 {
        let e = got[k] == line[k + 5];
        equal = equal & e;
    }
    equal
}
