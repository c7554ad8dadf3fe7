// The cases: refusals and their order, then what accepted rounds take and leave.
use crate::round::{Asked, Both, count, first, run};
use crate::start;
use std::io;
use std::io::Write;

// A round over whole slices of 24 with the whole table.
fn asked(number: usize, allowance: u32) -> Asked {
    Asked {
        number,
        allowance,
        table: 4097,
        from: 0,
        mpx: 24,
        pilot: 24,
        sum: 24,
        difference: 24,
    }
}

fn whole(
    out: &mut impl Write,
    name: &str,
    marks: &[u8],
    text: &[u8],
    ones: &[f32],
    tops: &[i16],
    number: usize,
    allowance: u32,
) -> io::Result<()> {
    first(out, name, marks, text, ones, tops, asked(number, allowance))
}

// 21 and 22, and that they come before all others.
pub(crate) fn by_number(out: &mut impl Write, ones: &[f32], tops: &[i16]) -> io::Result<()> {
    whole(out, "number 0", b"", b"11111111", ones, tops, 0, 9)?;
    whole(out, "number 1", b"", b"11111111", ones, tops, 1, 9)?;
    whole(out, "number 9", b"", b"11111111", ones, tops, 9, 99)?;
    whole(
        out,
        "number 9, allowance 8",
        b"u",
        b"1211",
        ones,
        tops,
        9,
        8,
    )
}

// 21 for the largest number, and 22.
pub(crate) fn by_allowance(out: &mut impl Write, ones: &[f32], tops: &[i16]) -> io::Result<()> {
    whole(
        out,
        "number largest",
        b"",
        b"11111111",
        ones,
        tops,
        18446744073709551615,
        4294967295,
    )?;
    whole(out, "allowance 0", b"", b"11111111", ones, tops, 2, 0)?;
    whole(out, "allowance 7 of 8", b"u", b"1211", ones, tops, 8, 7)?;
    whole(out, "allowance 2 of 2", b"", b"11111111", ones, tops, 2, 2)
}

// The earliest decoder's refusal, and that nothing was worked.
pub(crate) fn by_decoder(out: &mut impl Write, ones: &[f32], tops: &[i16]) -> io::Result<()> {
    whole(
        out,
        "third unfit",
        b"  u",
        b"222222222222",
        ones,
        tops,
        3,
        6,
    )?;
    whole(
        out,
        "fourth unfit, past the number",
        b"   u",
        b"222222222222",
        ones,
        tops,
        3,
        6,
    )?;
    whole(
        out,
        "second unfit, nothing waits",
        b" u",
        b"222200002222",
        ones,
        tops,
        3,
        6,
    )?;
    whole(
        out,
        "first too long, second unfit",
        b" u",
        b"23222222",
        ones,
        tops,
        2,
        6,
    )?;
    whole(
        out,
        "first unfit and too long",
        b"u",
        b"23222222",
        ones,
        tops,
        2,
        6,
    )?;
    whole(
        out,
        "eighth unfit",
        b"       u",
        b"11111111111111111111111111111111",
        ones,
        tops,
        8,
        8,
    )
}

pub(crate) fn by_length(out: &mut impl Write, ones: &[f32], tops: &[i16]) -> io::Result<()> {
    whole(out, "second pilot", b"", b"22222322", ones, tops, 2, 6)?;
    whole(
        out,
        "second sum and difference",
        b"",
        b"22222234",
        ones,
        tops,
        2,
        6,
    )?;
    whole(out, "second difference", b"", b"22222224", ones, tops, 2, 6)?;
    whole(
        out,
        "third sum, nothing waits",
        b"",
        b"222222220010",
        ones,
        tops,
        3,
        6,
    )?;
    whole(
        out,
        "lengths past the number",
        b"",
        b"222222221234",
        ones,
        tops,
        2,
        6,
    )?;
    let mut short = asked(2, 6);
    short.table = 4;
    first(out, "table 4", b"", b"23222222", ones, tops, short)
}

// Shares, what lapses, and samples that are brought again.
pub(crate) fn by_share(out: &mut impl Write, ones: &[f32], tops: &[i16]) -> io::Result<()> {
    whole(out, "7 for three", b"", b"333311112222", ones, tops, 3, 7)?;
    whole(
        out,
        "15 for eight",
        b"",
        b"22222222222222222222222222222222",
        ones,
        tops,
        8,
        15,
    )?;
    whole(
        out,
        "16 for eight",
        b"",
        b"22222222222222222222222222222222",
        ones,
        tops,
        8,
        16,
    )?;
    whole(
        out,
        "all that there is",
        b"",
        b"555500004444",
        ones,
        tops,
        3,
        4294967295,
    )
}

// Rounds one after the other, with a refused one between.
pub(crate) fn one_by_one(out: &mut impl Write, ones: &[f32], tops: &[i16]) -> io::Result<()> {
    let b = Both {
        f: start::rack_f32(b""),
        q: start::rack_q15(b""),
    };
    let one = run(out, b, "5 and 1 wait", b"55551111", ones, tops, asked(2, 5))?;
    let mut c = asked(2, 5);
    c.from = 2;
    let two = run(out, one, "3 wait", b"3333", ones, tops, c)?;
    let refused = run(out, two, "allowance 1", b"3333", ones, tops, asked(2, 1))?;
    let mut d = asked(2, 5);
    d.from = 4;
    run(out, refused, "1 waits", b"1111", ones, tops, d)?;
    Ok(())
}

// Parts that pass their slices' ends.
pub(crate) fn by_part(out: &mut impl Write, ones: &[f32], tops: &[i16]) -> io::Result<()> {
    let mut c = asked(2, 6);
    c.mpx = 5;
    c.pilot = 5;
    c.sum = 5;
    c.difference = 5;
    first(out, "3 and 2 of 3", b"", b"33333333", ones, tops, c)?;
    c.sum = 4;
    first(out, "sum 4", b"", b"33333333", ones, tops, c)?;
    c.mpx = 2;
    first(out, "mpx 2", b"", b"33333333", ones, tops, c)?;
    let mut none = asked(3, 6);
    none.mpx = 0;
    none.pilot = 0;
    none.sum = 0;
    none.difference = 0;
    first(out, "empty slices", b"", b"333333333333", ones, tops, none)
}

fn counts(
    out: &mut impl Write,
    name: &str,
    marks: &[u8],
    text: &[u8],
    ones: &[f32],
    number: usize,
    allowance: u32,
) -> io::Result<()> {
    count(
        out,
        start::rack_f32(marks),
        name,
        text,
        ones,
        asked(number, allowance),
    )?;
    Ok(())
}

// How many corrections of each decoder took the wide way.
pub(crate) fn by_wide(out: &mut impl Write, ones: &[f32]) -> io::Result<()> {
    counts(
        out,
        "wide second of three",
        b"qwp",
        b"555555555555",
        ones,
        3,
        15,
    )?;
    counts(
        out,
        "wide first, fourth and eighth",
        b"w  v   i",
        b"22222222222222222222222222222222",
        ones,
        8,
        16,
    )?;
    counts(out, "wide by share", b"www", b"444444444444", ones, 3, 4)
}

// Where no decoder is worked, or not all are.
pub(crate) fn by_wide_left(out: &mut impl Write, ones: &[f32]) -> io::Result<()> {
    counts(
        out,
        "wide past the number",
        b"iiii",
        b"2222222222222222",
        ones,
        2,
        4,
    )?;
    counts(
        out,
        "wide, nothing waits",
        b"iii",
        b"222200002222",
        ones,
        3,
        6,
    )?;
    counts(out, "wide, second pilot", b"ii", b"22222322", ones, 2, 6)?;
    counts(out, "wide, number 1", b"ii", b"22222222", ones, 1, 6)
}

// Rounds one after the other: a count is that of its round alone.
pub(crate) fn by_wide_round(out: &mut impl Write, ones: &[f32]) -> io::Result<()> {
    let one = count(
        out,
        start::rack_f32(b" i"),
        "wide, first round",
        b"11115555",
        ones,
        asked(2, 6),
    )?;
    let refused = count(
        out,
        one,
        "wide, refused round",
        b"11115555",
        ones,
        asked(2, 1),
    )?;
    let mut c = asked(2, 6);
    c.from = 4;
    let two = count(out, refused, "wide, second round", b"00002222", ones, c)?;
    count(
        out,
        two,
        "wide, third round",
        b"22220000",
        ones,
        asked(2, 6),
    )?;
    Ok(())
}
