// A line's call of the Q15 decoder.
ghost use Rattle.std.specs.Prelude.{◌≤◌};

use crate::lengths::length;
use crate::{names, words12};
use answers::answer::Refusal;
use decoder_q15::parts::ReplyQ15;
use decoder_record_q15::pll_q15::StereoPllQ15;
use test_words::words::{f64_of, i16_of, i64_of, u32_of, word_i64, word_u32};

// What a call answers, and the decoder after it.
#[derive(Clone, Copy)]
pub struct TurnQ15 {
    pub words: [u64; 12],
    pub next: StereoPllQ15,
}

// A plain and a fast decoder, and whether both answered the last line.
#[derive(Clone, Copy)]
pub struct PairQ15 {
    pub plain: StereoPllQ15,
    pub fast: StereoPllQ15,
    pub agree: bool,
}

// The words of a record, by its read-outs where it has them.
fn words(d: StereoPllQ15) -> [u64; 12] {
    [
        0,
        word_i64(d.kp),
        word_i64(d.ki),
        word_i64(d.imax),
        word_i64(d.beta),
        word_i64(d.on),
        word_i64(d.off),
        word_u32(d.step0),
        word_u32(d.phase()),
        word_i64(d.integ),
        word_i64(d.level),
        words12::switches(d.is_stereo(), d.is_enabled()),
    ]
}

// Construction; a refusal leaves the decoder that is there.
fn new(d: StereoPllQ15, w: &[u64; 17]) -> TurnQ15 {
    match StereoPllQ15::new(
        f64_of(w[0]),
        f64_of(w[1]),
        f64_of(w[2]),
        f64_of(w[3]),
        f64_of(w[4]),
    ) {
        Ok(n) => {
            let words = words(n);
            TurnQ15 { words, next: n }
        }
        Err(refusal) => TurnQ15 {
            words: [refusal.number() as u64, 0, 0, 0, 0, 0, 0, 0, 0, 0, 0, 0],
            next: d,
        },
    }
}

// A record filled in by hand, from the line's answers.
fn hand(w: &[u64; 17]) -> TurnQ15 {
    let d = StereoPllQ15 {
        kp: i64_of(w[6]),
        ki: i64_of(w[7]),
        imax: i64_of(w[8]),
        beta: i64_of(w[9]),
        on: i64_of(w[10]),
        off: i64_of(w[11]),
        step0: u32_of(w[12]),
        phase: u32_of(w[13]),
        integ: i64_of(w[14]),
        level: i64_of(w[15]),
        stereo: w[16] / 2 % 2 == 1,
        enabled: w[16] % 2 == 1,
    };
    let words = words(d);
    TurnQ15 { words, next: d }
}

// What a call leaves, with the outputs' digests.
fn left(a: Result<(), Refusal>, sum: u64, difference: u64, d: StereoPllQ15) -> TurnQ15 {
    let r = words(d);
    let words = words12::left(
        a,
        sum,
        difference,
        &r,
        d.integrator(),
        d.integrator_limit(),
        d.lock_level(),
    );
    TurnQ15 { words, next: d }
}

// Enable, disable or reset.
fn set(d: StereoPllQ15, which: u64) -> TurnQ15 {
    let next = match which {
        0 => d.enable(),
        1 => d.disable(),
        _ => d.reset(),
    };
    left(Ok(()), 0, 0, next)
}

// A pilot at the decoder's own frequency and phase.
fn sines(from: u32, step: u32, size: i16, table: &[i16], out: &mut [i16; 80]) {
    let mut p = from;
    for i in 0..80 {
        out[i] = numbers::fixed::q15_mul(
            size,
            lookup_q15::in_q15::cos_q15(table, lookup::lookup::sine_at(p)),
        );
        p = std::num::wrapping_add_u32(p, step);
    }
}

// A sample in the place of the one there, where the place is within the block.
fn replaced(place: u64, x: i16, out: &mut [i16; 80]) {
    let i = (place % 65536) as usize;
    if i < 80 {
        out[i] = x;
    }
}

fn pilot(d: StereoPllQ15, w: &[u64; 17], table: &[i16]) -> [i16; 80] {
    let mut out = [0i16; 80];
    let spec = w[4];
    if spec / 4294967296 == 4 {
        sines(d.phase, d.step0, i16_of(spec), table, &mut out);
    } else {
        test_samples::fill_q15(spec, &mut out);
    }
    replaced(w[3] / 65536, i16_of(w[3] / 4294967296), &mut out);
    out
}

// A block, plain or fast. Only the fast way has a merged one; the plain way takes the matrix after.
fn either(
    fast: bool,
    merged: bool,
    d: StereoPllQ15,
    table: &[i16],
    mpx: &[i16],
    pilot: &[i16],
    sum: &mut [i16],
    difference: &mut [i16],
) -> ReplyQ15 {
    if !fast {
        return decoder_q15::plain::block(d, table, mpx, pilot, sum, difference);
    }
    if merged {
        return merged_q15::in_q15::block(d, table, mpx, pilot, sum, difference);
    }
    decoder_q15::fast::block(d, table, mpx, pilot, sum, difference)
}

// The plain way's merged block: the matrix of an accepted plain block's outputs, of n samples.
fn matrixed(d: StereoPllQ15, n: usize, sum: &[i16; 80], difference: &[i16; 80]) -> TurnQ15
    requires { n ≤ 80 }
{
    let mut l = [9i16; 80];
    let mut r = [9i16; 80];
    let s = &sum[..];
    let e = &difference[..];
    let a = matrix::matrix::matrix_q15(&s[0..n], &e[0..n], &mut l[0..n], &mut r[0..n]);
    left(a, words12::digest_q15(&l), words12::digest_q15(&r), d)
}

// The outputs hold 9 before the block; those of a merged one are left and right.
fn outputs(
    fast: bool,
    merged: bool,
    d: StereoPllQ15,
    w: &[u64; 17],
    table: &[i16],
    mpx: &[i16],
    pilot: &[i16],
) -> TurnQ15 {
    let mut sum = [9i16; 80];
    let mut difference = [9i16; 80];
    let ns = length(w[2] / 281474976710656, 80);
    let nd = length(w[3], 80);
    let reply = either(
        fast,
        merged,
        d,
        table,
        mpx,
        pilot,
        &mut sum[0..ns],
        &mut difference[0..nd],
    );
    let a = reply.answer;
    let next = reply.decoder;
    if merged & !fast & a.is_ok() {
        return matrixed(next, ns, &sum, &difference);
    }
    left(
        a,
        words12::digest_q15(&sum),
        words12::digest_q15(&difference),
        next,
    )
}

// A block of either sort, of the lengths that the line has.
fn block(fast: bool, merged: bool, d: StereoPllQ15, w: &[u64; 17]) -> TurnQ15 {
    let mut table = [0i16; 4098];
    test_samples::fill_q15(w[0], &mut table);
    let mut mpx = [0i16; 80];
    test_samples::fill_q15(w[1], &mut mpx);
    let p = pilot(d, w, &table);
    let nt = length(w[2], 4098);
    let nm = length(w[2] / 65536, 80);
    let np = length(w[2] / 4294967296, 80);
    outputs(fast, merged, d, w, &table[0..nt], &mpx[0..nm], &p[0..np])
}

fn call(fast: bool, d: StereoPllQ15, name: usize, w: &[u64; 17]) -> TurnQ15 {
    match name {
        names::NEW_Q15 => new(d, w),
        names::HAND_Q15 => hand(w),
        names::SET_Q15 => set(d, w[0]),
        _ => block(fast, name == names::MERGED_Q15, d, w),
    }
}

pub(crate) fn both(d: PairQ15, name: usize, w: &[u64; 17]) -> PairQ15 {
    let plain = call(false, d.plain, name, w);
    let fast = call(true, d.fast, name, w);
    let a = plain.words;
    let b = fast.words;
    let agree = words12::same(&a, w) & words12::same(&b, w);
    let p = plain.next;
    let q = fast.next;
    PairQ15 {
        plain: p,
        fast: q,
        agree,
    }
}
