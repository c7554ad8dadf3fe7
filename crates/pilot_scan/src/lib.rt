// The scan of the pilot, from the last sample to the first: whether every sample is finite, whatever
// its sign, and how many were read.
#![tactic(auto)]

ghost use Rattle.std.specs.Prelude.{◌≤◌, ◌≡◌, true, length, drop};
ghost use Rattle.std.specs.Float.Ieee.Scale.{finite};
ghost use Rattle.decoder_parts.specs.Rules.{all_finite};
ghost use Rattle.pilot_scan.specs.Scan.{scan_of};

// What a scan tells: whether all samples are finite, and how many it read.
#[derive(Clone, Copy)]
pub struct Scanned {
    pub finite: bool,
    pub read: usize,
}

// Samples that are tested as one, since a test of each alone costs the fast block 3 to 4 per cent.
const CHUNK: usize = 32;

// Whether x is finite, by its pattern with the sign bit masked off; a NaN has no pattern to look
// at, and is told apart before.
fn is_finite_pattern(x: f32) -> bool
    ensures { result ≡ finite x }
{
    if x != x {
        return false;
    }
    f32::to_bits(x) % 2147483648 < 2139095040
}

// Whether every sample is finite.
fn all_finite(samples: &[f32]) -> bool
    ensures { result ≡ all_finite samples.now }
{
    let mut ok = true;
    for x in samples {
        let f = is_finite_pattern(*x);
        ok = ok & f;
    }
    ok
}

// A place from which on every sample is finite: 0, or the end of the last chunk with one that is not.
fn finite_from(pilot: &[f32]) -> usize
    ensures { (result ≤ length pilot.now) × (all_finite (drop result pilot.now) ≡ true) }
{
    let mut end = pilot.len();
    // counted down by hand: by whole chunks from the end, and what is left in front is tested below
    while end >= CHUNK {
        if !all_finite(&pilot[end - CHUNK..end]) {
            return end;
        }
        end -= CHUNK;
    }
    if all_finite(&pilot[0..end]) {
        return 0;
    }
    end
}

// The scan. It leaves at the last sample that is not finite, or with all of them read. The return
// before the loop, which would end at once there, is for time alone.
pub fn scan(pilot: &[f32]) -> Scanned
    ensures { result ≡ scan_of pilot.now }
{
    let all = Scanned {
        finite: true,
        read: pilot.len(),
    };
    let end = finite_from(pilot);
    if end == 0 {
        return all;
    }
    for i in (0..end).rev() {
        if !is_finite_pattern(pilot[i]) {
            return Scanned {
                finite: false,
                read: pilot.len() - i,
            };
        }
    }
    all
}
