// How many corrections take the wide way: of the correction itself, and of blocks, merged blocks and
// blocks with a summary, at f on both sides of both edges, at NaN and infinities, and in refused calls.
// What is to be written stands in the file stdout; it was worked out from document 02, request 7, by
// exact fractions.
#![tactic(auto)]

use answers::answer::Refusal;
use decoder_record::pll_f32::StereoPllF32;
use std::io;
use std::io::{BufWriter, Write};
use summary_record::in_f32::SummaryF32;
use test_words::words::{f32_of, f64_of, word_bool};

fn number(out: &mut impl Write, n: u64) -> io::Result<()> {
    write!(out, " {n}")
}

fn done(out: &mut impl Write) -> io::Result<()> {
    writeln!(out)
}

// ---- the correction
fn serves(out: &mut impl Write, name: &str, v: u64) -> io::Result<()> {
    write!(out, "{name}")?;
    number(out, word_bool(phase::correction::quick_serves(f64_of(v))))?;
    done(out)
}

fn served(out: &mut impl Write) -> io::Result<()> {
    serves(out, "v below 2^51:", 0x431F_FFFF_FFFF_FFFF)?;
    serves(out, "v 2^51:", 0x4320_0000_0000_0000)?;
    serves(out, "v above 2^51:", 0x4320_0000_0000_0001)?;
    serves(out, "v above -2^51:", 0xC31F_FFFF_FFFF_FFFF)?;
    serves(out, "v -2^51:", 0xC320_0000_0000_0000)?;
    serves(out, "v below -2^51:", 0xC320_0000_0000_0001)?;
    serves(out, "v 0:", 0)?;
    serves(out, "v infinity:", 0x7FF0_0000_0000_0000)?;
    serves(out, "v -infinity:", 0xFFF0_0000_0000_0000)?;
    serves(out, "v NaN:", 0x7FF8_0000_0000_0000)
}

fn corrected(out: &mut impl Write, name: &str, f: u64) -> io::Result<()> {
    write!(out, "{name}")?;
    let k = phase::correction::correction_fast(f32_of(f));
    number(out, k.step as u64)?;
    number(out, word_bool(k.quick))?;
    done(out)
}

fn corrections(out: &mut impl Write) -> io::Result<()> {
    corrected(out, "f below 524288:", 0x48FF_FFFF)?;
    corrected(out, "f 524288:", 0x4900_0000)?;
    corrected(out, "f 524288.0625:", 0x4900_0001)?;
    corrected(out, "f -524288:", 0xC900_0000)?;
    corrected(out, "f below -524288:", 0xC900_0001)?;
    corrected(out, "f 0:", 0)?;
    corrected(out, "f 0.25:", 0x3E80_0000)?;
    corrected(out, "f infinity:", 0x7F80_0000)?;
    corrected(out, "f -infinity:", 0xFF80_0000)?;
    corrected(out, "f NaN:", 0x7FC0_0000)
}

// ---- blocks
// With a table of ones, ki and beta 0, f is kp times the pilot sample, plus the integrator.
fn record(kp: u64, integ: u64, imax: u64) -> StereoPllF32 {
    StereoPllF32 {
        kp: f32_of(kp),
        ki: 0.0,
        imax: f32_of(imax),
        beta: 0.0,
        on: 0.5,
        off: 0.25,
        step0: 100,
        phase: 7,
        integ: f32_of(integ),
        level: 0.0,
        stereo: false,
        enabled: true,
    }
}

fn pilots(a: u64, b: u64, c: u64, d: u64) -> [f32; 4] {
    let mut p = [0.0f32; 4];
    p[0] = f32_of(a);
    p[1] = f32_of(b);
    p[2] = f32_of(c);
    p[3] = f32_of(d);
    p
}

// The count of an accepted call, or the refusal's number.
fn told(out: &mut impl Write, counted: Result<usize, Refusal>) -> io::Result<()> {
    match counted {
        Ok(n) => number(out, n as u64),
        Err(refusal) => {
            write!(out, " refused by")?;
            number(out, (refusal.code().code % 100) as u64)
        }
    }
}

fn merged(
    out: &mut impl Write,
    d: StereoPllF32,
    table: &[f32],
    mpx: &[f32],
    pilot: &[f32],
) -> io::Result<()> {
    let mut left = [9.0f32; 4];
    let mut right = [9.0f32; 4];
    let r = merged::in_f32::block(d, table, mpx, pilot, &mut left, &mut right);
    let answer = r.answer;
    told(out, answer)
}

// A period of three samples, of which one ends in four.
fn summarized(
    out: &mut impl Write,
    d: StereoPllF32,
    table: &[f32],
    mpx: &[f32],
    pilot: &[f32],
) -> io::Result<()> {
    let mut sum = [9.0f32; 4];
    let mut difference = [9.0f32; 4];
    let mut stereos = [9u32; 1];
    let mut monos = [9u32; 1];
    let mut changes = [9u32; 1];
    let mut magnitudes = [9.0f32; 1];
    let r = summary::block(
        d,
        SummaryF32::new(3),
        table,
        mpx,
        pilot,
        &mut sum,
        &mut difference,
        &mut stereos,
        &mut monos,
        &mut changes,
        &mut magnitudes,
    );
    let answer = r.answer;
    told(out, answer)
}

// The same samples by each sort of call; the decoder after the block.
fn called(
    out: &mut impl Write,
    name: &str,
    d: StereoPllF32,
    table: &[f32],
    pilot: &[f32],
) -> io::Result<StereoPllF32> {
    let mpx = [0.5f32; 4];
    let mut sum = [9.0f32; 4];
    let mut difference = [9.0f32; 4];
    write!(out, "{name}")?;
    let r = decoder_fast::block(d, table, &mpx, pilot, &mut sum, &mut difference);
    let answer = r.answer;
    told(out, answer)?;
    merged(out, d, table, &mpx, pilot)?;
    summarized(out, d, table, &mpx, pilot)?;
    done(out)?;
    Ok(r.decoder)
}

// .. with a whole table and four samples.
fn counted(
    out: &mut impl Write,
    name: &str,
    d: StereoPllF32,
    table: &[f32; 4097],
    pilot: &[f32; 4],
) -> io::Result<StereoPllF32> {
    let t: &[f32] = table;
    let p: &[f32] = pilot;
    called(out, name, d, t, p)
}

// Each edge from both sides; once with finite pilots, and once with one that is not, so that each sample
// is tested.
fn edges(out: &mut impl Write, table: &[f32; 4097]) -> io::Result<()> {
    let d = record(0x3F80_0000, 0, 0);
    let upper = pilots(0x48FF_FFFF, 0x4900_0000, 0x4900_0001, 0);
    let lower = pilots(0xC8FF_FFFF, 0xC900_0000, 0xC900_0001, 0);
    let tested = pilots(0x7FC0_0000, 0x4900_0000, 0xC900_0000, 0xC900_0001);
    let infinite = pilots(0x7F80_0000, 0xFF80_0000, 0x7FC0_0000, 0x3F80_0000);
    counted(out, "upper edge:", d, table, &upper)?;
    counted(out, "lower edge:", d, table, &lower)?;
    counted(out, "a NaN pilot among them:", d, table, &tested)?;
    counted(out, "pilots that are not finite:", d, table, &infinite)?;
    Ok(())
}

// f is a NaN or infinite.
fn no_numbers(out: &mut impl Write, table: &[f32; 4097]) -> io::Result<()> {
    let mixed = pilots(0x3F80_0000, 0, 0xBF80_0000, 0x7FC0_0000);
    let nan = record(0x7FC0_0000, 0, 0);
    let infinite = record(0x7F80_0000, 0, 0);
    let held = record(0, 0x7F80_0000, 0x7F80_0000);
    let below = record(0, 0xFF80_0000, 0x7F80_0000);
    let limited = record(0x3F80_0000, 0x4980_0000, 0x4900_0000);
    counted(out, "kp NaN:", nan, table, &mixed)?;
    counted(out, "kp infinite:", infinite, table, &mixed)?;
    counted(out, "integrator infinite:", held, table, &mixed)?;
    counted(out, "integrator -infinite:", below, table, &mixed)?;
    counted(out, "integrator limited to 524288:", limited, table, &mixed)?;
    Ok(())
}

// A block after one that counted three begins at 0 again.
fn twice(out: &mut impl Write, table: &[f32; 4097]) -> io::Result<()> {
    let d = record(0x3F80_0000, 0, 0);
    let wide = pilots(0x4900_0000, 0x4900_0001, 0xC900_0001, 0);
    let quick = pilots(0, 0x3F80_0000, 0xC900_0000, 0x48FF_FFFF);
    let one = pilots(0, 0, 0, 0x4900_0000);
    let next = counted(out, "three:", d, table, &wide)?;
    let last = counted(out, "then none:", next, table, &quick)?;
    counted(out, "then one:", last, table, &one)?;
    Ok(())
}

fn refused(out: &mut impl Write, table: &[f32; 4097]) -> io::Result<()> {
    let d = record(0x3F80_0000, 0, 0);
    let wide = pilots(0x4900_0000, 0x4900_0001, 0xC900_0001, 0x4900_0000);
    let t: &[f32] = table;
    called(out, "a table of 4096:", d, &t[0..4096], &wide)?;
    called(out, "a pilot of 3:", d, t, &wide[0..3])?;
    Ok(())
}

fn main(rt: HostRuntime) -> io::Result<()> {
    let mut out = BufWriter::new(rt.alloc(), io::writer(&rt))?;
    let table = [1.0f32; 4097];
    served(&mut out)?;
    corrections(&mut out)?;
    edges(&mut out, &table)?;
    no_numbers(&mut out, &table)?;
    twice(&mut out, &table)?;
    refused(&mut out, &table)?;
    out.flush()
}
