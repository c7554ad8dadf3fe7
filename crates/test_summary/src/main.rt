// Runs cases of a summary beside the pairs: each refusal, the order of the causes, and what blocks
// leave. What each has to write stands in the file stdout; it was worked out from document 02,
// request 4, and not from what this program wrote.
#![tactic(auto)]

ghost use Rattle.std.specs.Prelude.{◌≡◌, length};

use std::io;
use std::io::{BufWriter, Write};

mod blocks;
mod call;
mod causes;
mod show;
mod start;

fn all(out: &mut impl Write, ones: &[f32], tops: &[i16]) -> io::Result<()>
    requires { (length ones.now ≡ 4097) × (length tops.now ≡ 4097) }
{
    causes::by_counts(out, ones, tops)?;
    causes::by_magnitude(out, ones, tops)?;
    causes::by_order(out, ones, tops)?;
    blocks::decisions(out, ones, tops)?;
    blocks::magnitudes(out, ones, tops)?;
    blocks::periods(out, ones, tops)
}

fn main(rt: HostRuntime) -> io::Result<()> {
    let mut out = BufWriter::new(rt.alloc(), io::writer(&rt))?;
    let ones = [1.0f32; 4097];
    let tops = [32767i16; 4097];
    all(&mut out, &ones, &tops)?;
    out.flush()
}
