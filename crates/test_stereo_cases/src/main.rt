// Runs document 01's other cases of oscillator, matrix and encoders, and one case for each refusal of
// these calls. What each has to write stands in the file stdout; it was worked out from the document.
#![tactic(auto)]

use std::io;
use std::io::{BufWriter, Write};

mod cases;
mod lengths;
mod write;

fn main(rt: HostRuntime) -> io::Result<()> {
    let mut out = BufWriter::new(rt.alloc(), io::writer(&rt))?;
    cases::run(&mut out)?;
    let cos = [1.0f32; 4097];
    lengths::run(&mut out, &cos)?;
    out.flush()
}
