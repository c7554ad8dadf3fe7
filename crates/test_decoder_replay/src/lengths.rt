// The lengths of a line's block.
ghost use Rattle.std.specs.Prelude.{◌≤◌};

// A length from a field of 16 bits, which counts as `most` where it is more.
pub(crate) fn length(field: u64, most: usize) -> usize
    ensures { result ≤ most }
{
    let n = (field % 65536) as usize;
    if n > most { most } else { n }
}
