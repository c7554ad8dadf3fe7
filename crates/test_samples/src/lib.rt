// Tables and samples from a word, by the rule that oracle/ uses for its lists, which therefore need
// not hold them: above 32 bits the kind (1 a triangle for a cosine, 2 one value, 3 sizes from 2^-8
// to 1, else any bits, in f32 one time in eight), below them the seed, or the value.
#![tactic(auto)]

ghost use Rattle.std.specs.Prelude.{◌≡◌, length};
ghost use Rattle.answers.specs.Samples.{samples};
ghost use Rattle.test_samples.specs.Samples.{mixed_of, drawn_of, bounded_of, triangle_of, any_of, sample_f32_of, sample_q15_of};

// 32 bits that look random.
fn mixed(n: u64) -> u64
    ensures { result ≡ mixed_of n }
{
    let a = n % 4294967296 * 2654435761 % 4294967296;
    let b = (a + a / 32768) % 4294967296;
    let c = b * 2246822519 % 4294967296;
    (c + c / 8192) % 4294967296
}

// The i-th word of a seed.
fn drawn(spec: u64, i: usize) -> u64
    ensures { result ≡ drawn_of spec i }
{
    mixed(spec % 4294967296 + i as u64 % 4294967296)
}

// The pattern of an f32 from 2^-8 to 1 in size.
fn bounded(v: u64) -> u64
    ensures { result ≡ bounded_of v }
{
    v / 2147483648 % 2 * 2147483648 + (119 + v % 8) * 8388608 + v / 8 % 8388608
}

// From 1 down to -1 and up again over 4096 entries.
fn triangle(i: usize) -> f64
    ensures { result ≡ triangle_of i }
{
    let k = i % 4096;
    let x = floats::bits::i64_to_f64(k as i64) / 1024.0;
    if k < 2048 { 1.0 - x } else { x - 3.0 }
}

// One in eight of any bits, the others from 2^-8 to 1 in size.
fn any_f32(w: u64) -> f32
    ensures { result ≡ any_of w }
{
    let v = mixed(w);
    if w % 8 == 0 {
        return test_words::words::f32_of(v);
    }
    test_words::words::f32_of(bounded(v))
}

fn sample_f32(spec: u64, i: usize) -> f32
    ensures { result ≡ sample_f32_of spec i }
{
    match spec / 4294967296 {
        1 => floats::bits::f64_to_f32(triangle(i)),
        2 => test_words::words::f32_of(spec),
        3 => test_words::words::f32_of(bounded(drawn(spec, i))),
        _ => any_f32(drawn(spec, i)),
    }
}

fn sample_q15(spec: u64, i: usize) -> i16
    ensures { result ≡ sample_q15_of spec i }
{
    match spec / 4294967296 {
        1 => scale::scale::q15_from_f64(triangle(i)),
        2 => test_words::words::i16_of(spec),
        _ => test_words::words::i16_of(drawn(spec, i)),
    }
}

// The samples of a word, as many as the slice holds.
pub fn fill_f32(spec: u64, out: &mut [f32])
    ensures { out.new ≡ samples (length out.old) (λ i. sample_f32_of spec i) }
{
    for i in 0..out.len() {
        out[i] = sample_f32(spec, i);
    }
}

pub fn fill_q15(spec: u64, out: &mut [i16])
    ensures { out.new ≡ samples (length out.old) (λ i. sample_q15_of spec i) }
{
    for i in 0..out.len() {
        out[i] = sample_q15(spec, i);
    }
}
