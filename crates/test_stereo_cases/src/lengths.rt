// Blocks of right and of wrong lengths, through the matrix and the encoders. What each has to write
// stands in the file stdout.
use crate::cases::an_encoder;
use crate::write::{done, line, number, refused};
use answers::answer::{Refusal, code_of};
use encoder_record_rds::rds::StereoEncodeRds;
use std::io;
use std::io::Write;

// A block's answer, with its lengths.
fn said(out: &mut impl Write, a: Result<(), Refusal>) -> io::Result<()> {
    let c = code_of(a);
    if c.code == 0 {
        return write!(out, " accepted");
    }
    refused(out, c.code % 100)?;
    number(out, c.expected as u64)?;
    number(out, c.got as u64)
}

// Slices of four and of three samples where the name says so.
fn matrix_f32(
    out: &mut impl Write,
    name: &str,
    sum: &[f32],
    difference: &[f32],
    left: &mut [f32],
    right: &mut [f32],
) -> io::Result<()> {
    line(out, name)?;
    said(
        out,
        matrix::matrix::matrix_f32(sum, difference, left, right),
    )?;
    done(out)
}

fn matrix_q15(
    out: &mut impl Write,
    name: &str,
    sum: &[i16],
    difference: &[i16],
    left: &mut [i16],
    right: &mut [i16],
) -> io::Result<()> {
    line(out, name)?;
    said(
        out,
        matrix::matrix::matrix_q15(sum, difference, left, right),
    )?;
    done(out)
}

// Both encoders, on a left slice of four samples; the next phase of each follows.
fn plain(out: &mut impl Write, table: &[f32], right: &[f32], output: &mut [f32]) -> io::Result<()> {
    let left = [0.5f32; 4];
    let reply = encoder::stereo::encode(an_encoder(), table, &left, right, output);
    let a = reply.answer;
    said(out, a)?;
    number(out, reply.encoder.nco.phase as u64)
}

fn with_rds(
    out: &mut impl Write,
    table: &[f32],
    right: &[f32],
    rds: &[f32],
    output: &mut [f32],
) -> io::Result<()> {
    let left = [0.5f32; 4];
    let enc = an_encoder();
    let e = StereoEncodeRds { enc, rds: 0.125 };
    let reply = encoder_rds::rds::encode(e, table, &left, right, rds, output);
    let a = reply.answer;
    said(out, a)?;
    number(out, reply.encoder.enc.nco.phase as u64)
}

fn encoders(
    out: &mut impl Write,
    name: &str,
    table: &[f32],
    right: &[f32],
    rds: &[f32],
    output: &mut [f32],
) -> io::Result<()> {
    line(out, name)?;
    plain(out, table, right, output)?;
    with_rds(out, table, right, rds, output)?;
    done(out)
}

fn matrix_inputs_f32(out: &mut impl Write) -> io::Result<()> {
    let four = [0.5f32; 4];
    let three = [0.5f32; 3];
    let mut a = [0.0f32; 4];
    let mut b = [0.0f32; 4];
    matrix_f32(out, "matrix f32:", &four, &four, &mut a, &mut b)?;
    matrix_f32(
        out,
        "matrix f32, difference short:",
        &four,
        &three,
        &mut a,
        &mut b,
    )
}

fn matrix_outputs_f32(out: &mut impl Write) -> io::Result<()> {
    let four = [0.5f32; 4];
    let mut a = [0.0f32; 4];
    let mut short = [0.0f32; 3];
    matrix_f32(
        out,
        "matrix f32, left short:",
        &four,
        &four,
        &mut short,
        &mut a,
    )?;
    matrix_f32(
        out,
        "matrix f32, right short:",
        &four,
        &four,
        &mut a,
        &mut short,
    )
}

fn matrix_inputs_q15(out: &mut impl Write) -> io::Result<()> {
    let four = [5i16; 4];
    let three = [5i16; 3];
    let mut a = [0i16; 4];
    let mut b = [0i16; 4];
    matrix_q15(out, "matrix Q15:", &four, &four, &mut a, &mut b)?;
    matrix_q15(
        out,
        "matrix Q15, difference short:",
        &four,
        &three,
        &mut a,
        &mut b,
    )
}

fn matrix_outputs_q15(out: &mut impl Write) -> io::Result<()> {
    let four = [5i16; 4];
    let mut a = [0i16; 4];
    let mut short = [0i16; 3];
    matrix_q15(
        out,
        "matrix Q15, left short:",
        &four,
        &four,
        &mut short,
        &mut a,
    )?;
    matrix_q15(
        out,
        "matrix Q15, right short:",
        &four,
        &four,
        &mut a,
        &mut short,
    )
}

fn whole_blocks(out: &mut impl Write, cos: &[f32]) -> io::Result<()> {
    let four = [0.5f32; 4];
    let mut output = [0.0f32; 4];
    encoders(out, "encoders:", cos, &four, &four, &mut output)?;
    encoders(
        out,
        "encoders, table of 4:",
        &four,
        &four,
        &four,
        &mut output,
    )
}

fn short_inputs(out: &mut impl Write, cos: &[f32]) -> io::Result<()> {
    let four = [0.5f32; 4];
    let three = [0.5f32; 3];
    let mut output = [0.0f32; 4];
    encoders(
        out,
        "encoders, right short:",
        cos,
        &three,
        &four,
        &mut output,
    )?;
    encoders(out, "encoders, RDS short:", cos, &four, &three, &mut output)
}

fn short_output(out: &mut impl Write, cos: &[f32]) -> io::Result<()> {
    let four = [0.5f32; 4];
    let mut short = [0.0f32; 3];
    encoders(
        out,
        "encoders, output short:",
        cos,
        &four,
        &four,
        &mut short,
    )
}

pub(crate) fn run(out: &mut impl Write, cos: &[f32]) -> io::Result<()> {
    matrix_inputs_f32(out)?;
    matrix_outputs_f32(out)?;
    matrix_inputs_q15(out)?;
    matrix_outputs_q15(out)?;
    whole_blocks(out, cos)?;
    short_inputs(out, cos)?;
    short_output(out, cos)
}
