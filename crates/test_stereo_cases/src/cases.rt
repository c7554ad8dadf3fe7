// Document 01's other cases, and one case for each refusal of these calls. What each has to write
// stands in the file stdout.
use crate::write::{done, line, number, refused};
use answers::answer::Refusal;
use encoder_record::encode::StereoEncode;
use encoder_record_rds::rds::StereoEncodeRds;
use oscillator::nco::Nco;
use std::io;
use std::io::Write;
use test_words::words::f32_of;

fn increment(out: &mut impl Write, name: &str, freq: f64, rate: f64) -> io::Result<()> {
    line(out, name)?;
    match oscillator::nco::increment_for(freq, rate) {
        Ok(inc) => number(out, inc as u64)?,
        Err(refusal) => refused(out, refusal.number())?,
    }
    done(out)
}

fn new_oscillator(out: &mut impl Write, freq: f64, rate: f64) -> io::Result<()> {
    match Nco::new(freq, rate) {
        Ok(o) => number(out, o.inc as u64),
        Err(refusal) => refused(out, refusal.number()),
    }
}

fn state(out: &mut impl Write, o: Nco) -> io::Result<()> {
    number(out, o.phase as u64)?;
    number(out, o.inc as u64)
}

// The refusal of a set call, where it was turned back.
fn turned_back(out: &mut impl Write, a: Result<(), Refusal>) -> io::Result<()> {
    match a {
        Ok(()) => Ok(()),
        Err(refusal) => refused(out, refusal.number()),
    }
}

// Another frequency for an oscillator that stands at phase 5 with the increment 7.
fn old_oscillator(out: &mut impl Write, freq: f64, rate: f64) -> io::Result<()> {
    let mut o = Nco { phase: 5, inc: 7 };
    let a = o.set_frequency(freq, rate);
    turned_back(out, a)?;
    state(out, o)
}

fn oscillator(out: &mut impl Write, name: &str, freq: f64, rate: f64) -> io::Result<()> {
    line(out, name)?;
    new_oscillator(out, freq, rate)?;
    old_oscillator(out, freq, rate)?;
    done(out)
}

fn new_encoder(
    out: &mut impl Write,
    frequency: f64,
    main: f32,
    pilot: f32,
    rate: f64,
) -> io::Result<()> {
    match StereoEncode::new(frequency, main, pilot, rate) {
        Ok(e) => number(out, e.nco.inc as u64),
        Err(refusal) => refused(out, refusal.number()),
    }
}

fn new_encoder_rds(
    out: &mut impl Write,
    frequency: f64,
    main: f32,
    pilot: f32,
    rds: f32,
    rate: f64,
) -> io::Result<()> {
    match StereoEncodeRds::new(frequency, main, pilot, rds, rate) {
        Ok(e) => number(out, e.enc.nco.inc as u64),
        Err(refusal) => refused(out, refusal.number()),
    }
}

// Both constructors.
fn construct(
    out: &mut impl Write,
    name: &str,
    frequency: f64,
    main: f32,
    pilot: f32,
    rds: f32,
    rate: f64,
) -> io::Result<()> {
    line(out, name)?;
    new_encoder(out, frequency, main, pilot, rate)?;
    new_encoder_rds(out, frequency, main, pilot, rds, rate)?;
    done(out)
}

fn level(out: &mut impl Write, x: f32) -> io::Result<()> {
    number(out, test_words::words::word_f32(x))
}

// Both setters, on an encoder whose amplitude and level are 0.125; the level after each follows
// as a pattern.
fn set(out: &mut impl Write, name: &str, to: f32) -> io::Result<()> {
    line(out, name)?;
    let mut e = an_encoder();
    let a = e.set_pilot(to);
    turned_back(out, a)?;
    level(out, e.pilot)?;
    let enc = an_encoder();
    let mut with_rds = StereoEncodeRds { enc, rds: 0.125 };
    let b = with_rds.set_rds(to);
    turned_back(out, b)?;
    level(out, with_rds.rds)?;
    done(out)
}

// An encoder at phase 1 with the increment 2.
pub(crate) fn an_encoder() -> StereoEncode {
    StereoEncode {
        nco: Nco { phase: 1, inc: 2 },
        main: 0.5,
        pilot: 0.125,
    }
}

fn increments(out: &mut impl Write) -> io::Result<()> {
    increment(out, "cycles -0.25:", -0.25, 1.0)?;
    increment(out, "cycles 1/2^33:", 1.0, 8589934592.0)?;
    increment(out, "cycles 3/2^33:", 3.0, 8589934592.0)?;
    increment(out, "cycles 5/2^33:", 5.0, 8589934592.0)
}

fn oscillators(out: &mut impl Write) -> io::Result<()> {
    oscillator(out, "oscillator, rate 0:", 1.0, 0.0)?;
    oscillator(out, "oscillator, rate NaN:", 1.0, 0.0 / 0.0)?;
    oscillator(out, "oscillator, frequency infinite:", 1.0 / 0.0, 1.0)?;
    oscillator(out, "oscillator, a quarter:", 1.0, 4.0)
}

// The calls of an oscillator that are never turned back.
fn oscillator_calls(out: &mut impl Write) -> io::Result<()> {
    line(out, "oscillator, calls:")?;
    let o = Nco::from_increment(7);
    state(out, o)?;
    let p = o.set_phase(4294967290);
    number(out, p.phase() as u64)?;
    number(out, p.increment() as u64)?;
    state(out, p.advance(3))?;
    state(out, p.reset())?;
    done(out)
}

// The same of an encoder, and what it answers of its levels.
fn encoder_calls(out: &mut impl Write) -> io::Result<()> {
    line(out, "encoder, calls:")?;
    let e = an_encoder();
    number(out, e.phase() as u64)?;
    number(out, e.increment() as u64)?;
    level(out, e.main())?;
    level(out, e.pilot())?;
    let p = e.set_phase(9);
    state(out, p.nco)?;
    let r = e.reset();
    state(out, r.nco)?;
    done(out)
}

fn encoder_rds_calls(out: &mut impl Write) -> io::Result<()> {
    line(out, "encoder with RDS, calls:")?;
    let e = StereoEncodeRds {
        enc: an_encoder(),
        rds: 0.0625,
    };
    number(out, e.phase() as u64)?;
    number(out, e.increment() as u64)?;
    level(out, e.main())?;
    level(out, e.pilot())?;
    level(out, e.rds())?;
    let p = e.set_phase(9);
    state(out, p.encoder().nco)?;
    let r = e.reset();
    state(out, r.enc.nco)?;
    done(out)
}

fn constructions(out: &mut impl Write) -> io::Result<()> {
    construct(out, "encoder:", 19000.0, 0.9, 0.09, 0.04, 192000.0)?;
    construct(out, "encoder, rate -1:", 19000.0, 0.9, 0.09, 0.04, -1.0)?;
    construct(
        out,
        "encoder, frequency 17999:",
        17999.0,
        0.9,
        0.09,
        0.04,
        192000.0,
    )?;
    construct(
        out,
        "encoder, gain 1.5:",
        19000.0,
        1.5,
        0.09,
        0.04,
        192000.0,
    )?;
    construct(
        out,
        "encoder, amplitude 0.2:",
        19000.0,
        0.9,
        0.2,
        0.04,
        192000.0,
    )
}

fn further_constructions(out: &mut impl Write) -> io::Result<()> {
    construct(
        out,
        "encoder, amplitude above 0.2:",
        19000.0,
        0.9,
        f32_of(0x3E4C_CCCE),
        0.04,
        192000.0,
    )?;
    construct(
        out,
        "encoder, rate 119999:",
        19000.0,
        0.9,
        0.09,
        0.04,
        119999.0,
    )?;
    construct(
        out,
        "encoder, RDS level 0.2:",
        19000.0,
        0.9,
        0.09,
        0.2,
        192000.0,
    )?;
    construct(
        out,
        "encoder, RDS level above 0.2:",
        19000.0,
        0.9,
        0.09,
        f32_of(0x3E4C_CCCE),
        192000.0,
    )?;
    construct(out, "encoder, all at fault:", 1.0, 2.0, 2.0, 2.0, 0.0)?;
    construct(
        out,
        "encoder, all but the rate:",
        1.0,
        2.0,
        2.0,
        2.0,
        96000.0,
    )
}

fn sets(out: &mut impl Write) -> io::Result<()> {
    set(out, "set to 0.2:", 0.2)?;
    set(out, "set to the next f32:", f32_of(0x3E4C_CCCE))?;
    set(out, "set to -0:", -0.0)?;
    set(out, "set to NaN:", 0.0 / 0.0)
}

pub(crate) fn run(out: &mut impl Write) -> io::Result<()> {
    increments(out)?;
    oscillators(out)?;
    oscillator_calls(out)?;
    constructions(out)?;
    further_constructions(out)?;
    sets(out)?;
    encoder_calls(out)?;
    encoder_rds_calls(out)
}
