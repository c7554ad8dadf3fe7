// A line's call of the f32 decoder.
ghost use Rattle.std.specs.Prelude.{◌≤◌};

use crate::lengths::length;
use crate::{names, words12};
use answers::answer::Refusal;
use counted::answer_of;
use decoder::parts::ReplyF32;
use decoder_fast::FastReply;
use decoder_record::pll_f32::StereoPllF32;
use test_words::words::{f32_of, f64_of, u32_of, word_f32, word_u32};

// What a call answers, and the decoder after it.
#[derive(Clone, Copy)]
pub struct TurnF32 {
    pub words: [u64; 12],
    pub next: StereoPllF32,
}

// A plain and a fast decoder, and whether both answered the last line.
#[derive(Clone, Copy)]
pub struct PairF32 {
    pub plain: StereoPllF32,
    pub fast: StereoPllF32,
    pub agree: bool,
}

// The words of a record, by its read-outs where it has them.
fn words(d: StereoPllF32) -> [u64; 12] {
    [
        0,
        word_f32(d.kp),
        word_f32(d.ki),
        word_f32(d.imax),
        word_f32(d.beta),
        word_f32(d.on),
        word_f32(d.off),
        word_u32(d.step0),
        word_u32(d.phase()),
        word_f32(d.integ),
        word_f32(d.level),
        words12::switches(d.is_stereo(), d.is_enabled()),
    ]
}

// Construction; a refusal leaves the decoder that is there.
fn new(d: StereoPllF32, w: &[u64; 17]) -> TurnF32 {
    match StereoPllF32::new(
        f64_of(w[0]),
        f64_of(w[1]),
        f64_of(w[2]),
        f64_of(w[3]),
        f64_of(w[4]),
    ) {
        Ok(n) => {
            let words = words(n);
            TurnF32 { words, next: n }
        }
        Err(refusal) => TurnF32 {
            words: [refusal.number() as u64, 0, 0, 0, 0, 0, 0, 0, 0, 0, 0, 0],
            next: d,
        },
    }
}

// A record filled in by hand, from the line's answers.
fn hand(w: &[u64; 17]) -> TurnF32 {
    let d = StereoPllF32 {
        kp: f32_of(w[6]),
        ki: f32_of(w[7]),
        imax: f32_of(w[8]),
        beta: f32_of(w[9]),
        on: f32_of(w[10]),
        off: f32_of(w[11]),
        step0: u32_of(w[12]),
        phase: u32_of(w[13]),
        integ: f32_of(w[14]),
        level: f32_of(w[15]),
        stereo: w[16] / 2 % 2 == 1,
        enabled: w[16] % 2 == 1,
    };
    let words = words(d);
    TurnF32 { words, next: d }
}

// What a call leaves, with the outputs' digests.
fn left(a: Result<(), Refusal>, sum: u64, difference: u64, d: StereoPllF32) -> TurnF32 {
    let r = words(d);
    let words = words12::left(
        a,
        sum,
        difference,
        &r,
        d.integrator(),
        d.integrator_limit(),
        d.lock_level(),
    );
    TurnF32 { words, next: d }
}

// Enable, disable or reset.
fn set(d: StereoPllF32, which: u64) -> TurnF32 {
    let next = match which {
        0 => d.enable(),
        1 => d.disable(),
        _ => d.reset(),
    };
    left(Ok(()), 0, 0, next)
}

// A pilot at the decoder's own frequency and phase.
fn sines(from: u32, step: u32, size: f32, table: &[f32], out: &mut [f32; 80]) {
    let mut p = from;
    for i in 0..80 {
        out[i] = size * lookup::lookup::cos_f32(table, lookup::lookup::sine_at(p));
        p = std::num::wrapping_add_u32(p, step);
    }
}

// A sample in the place of the one there, where the place is within the block.
fn replaced(place: u64, x: f32, out: &mut [f32; 80]) {
    let i = (place % 65536) as usize;
    if i < 80 {
        out[i] = x;
    }
}

fn pilot(d: StereoPllF32, w: &[u64; 17], table: &[f32]) -> [f32; 80] {
    let mut out = [0.0f32; 80];
    let spec = w[4];
    if spec / 4294967296 == 4 {
        sines(d.phase, d.step0, f32_of(spec), table, &mut out);
    } else {
        test_samples::fill_f32(spec, &mut out);
    }
    replaced(w[3] / 65536, f32_of(w[3] / 4294967296), &mut out);
    out
}

// A fast block's reply without its count, as a plain one's is.
fn uncounted(r: FastReply) -> ReplyF32 {
    let a = r.answer;
    let decoder = r.decoder;
    ReplyF32 {
        answer: answer_of(a),
        decoder,
    }
}

// A block, plain or fast. Only the fast way has a merged one; the plain way takes the matrix after.
fn either(
    fast: bool,
    merged: bool,
    d: StereoPllF32,
    table: &[f32],
    mpx: &[f32],
    pilot: &[f32],
    sum: &mut [f32],
    difference: &mut [f32],
) -> ReplyF32 {
    if !fast {
        return decoder::plain::block(d, table, mpx, pilot, sum, difference);
    }
    if merged {
        return uncounted(merged::in_f32::block(d, table, mpx, pilot, sum, difference));
    }
    uncounted(decoder_fast::block(d, table, mpx, pilot, sum, difference))
}

// The plain way's merged block: the matrix of an accepted plain block's outputs, of n samples.
fn matrixed(d: StereoPllF32, n: usize, sum: &[f32; 80], difference: &[f32; 80]) -> TurnF32
    requires { n ≤ 80 }
{
    let mut l = [9.0f32; 80];
    let mut r = [9.0f32; 80];
    let s = &sum[..];
    let e = &difference[..];
    let a = matrix::matrix::matrix_f32(&s[0..n], &e[0..n], &mut l[0..n], &mut r[0..n]);
    left(a, words12::digest_f32(&l), words12::digest_f32(&r), d)
}

// The outputs hold 9 before the block; those of a merged one are left and right.
fn outputs(
    fast: bool,
    merged: bool,
    d: StereoPllF32,
    w: &[u64; 17],
    table: &[f32],
    mpx: &[f32],
    pilot: &[f32],
) -> TurnF32 {
    let mut sum = [9.0f32; 80];
    let mut difference = [9.0f32; 80];
    let ns = length(w[2] / 281474976710656, 80);
    let nd = length(w[3], 80);
    let reply = either(
        fast,
        merged,
        d,
        table,
        mpx,
        pilot,
        &mut sum[0..ns],
        &mut difference[0..nd],
    );
    let a = reply.answer;
    let next = reply.decoder;
    if merged & !fast & a.is_ok() {
        return matrixed(next, ns, &sum, &difference);
    }
    left(
        a,
        words12::digest_f32(&sum),
        words12::digest_f32(&difference),
        next,
    )
}

// A block of either sort, of the lengths that the line has.
fn block(fast: bool, merged: bool, d: StereoPllF32, w: &[u64; 17]) -> TurnF32 {
    let mut table = [0.0f32; 4098];
    test_samples::fill_f32(w[0], &mut table);
    let mut mpx = [0.0f32; 80];
    test_samples::fill_f32(w[1], &mut mpx);
    let p = pilot(d, w, &table);
    let nt = length(w[2], 4098);
    let nm = length(w[2] / 65536, 80);
    let np = length(w[2] / 4294967296, 80);
    outputs(fast, merged, d, w, &table[0..nt], &mpx[0..nm], &p[0..np])
}

fn call(fast: bool, d: StereoPllF32, name: usize, w: &[u64; 17]) -> TurnF32 {
    match name {
        names::NEW_F32 => new(d, w),
        names::HAND_F32 => hand(w),
        names::SET_F32 => set(d, w[0]),
        _ => block(fast, name == names::MERGED_F32, d, w),
    }
}

pub(crate) fn both(d: PairF32, name: usize, w: &[u64; 17]) -> PairF32 {
    let plain = call(false, d.plain, name, w);
    let fast = call(true, d.fast, name, w);
    let a = plain.words;
    let b = fast.words;
    let agree = words12::same(&a, w) & words12::same(&b, w);
    let p = plain.next;
    let q = fast.next;
    PairF32 {
        plain: p,
        fast: q,
        agree,
    }
}
