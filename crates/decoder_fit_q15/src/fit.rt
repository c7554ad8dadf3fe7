// Which Q15 records a block takes.
ghost use Rattle.std.specs.Prelude.{◌≡◌};
ghost use Rattle.decoder_record_q15.specs.Fit.{within_z, fit_q15};
ghost use Rattle.decoder_record_q15.specs.Records.{pll_of_q15};

use decoder_record_q15::pll_q15::{StereoPllQ15, guard_fits};

// The level's bounds: -2^61 - 2^30 and 2^61 + 2^30 - 1.
const LEVEL_LOW: i64 = -2305843010287435776;

const LEVEL_HIGH: i64 = 2305843010287435775;

// Whether z is in lo..=hi.
fn in_range(lo: i64, hi: i64, z: i64) -> bool
    ensures { result ≡ within_z lo hi z }
{
    (lo <= z) & (z <= hi)
}

// Whether a block takes the record; -imax would pass the largest i64 at the smallest one.
pub fn is_fit(d: StereoPllQ15) -> bool
    ensures { result ≡ fit_q15 (pll_of_q15 d) }
{
    let imax = d.imax;
    if imax < 0 {
        return false;
    }
    let gains = (d.kp >= 0) & (d.ki >= 0);
    let guards = guard_fits(d.kp, imax) & guard_fits(d.ki, imax);
    let level = in_range(0, 2147483648, d.beta) & in_range(LEVEL_LOW, LEVEL_HIGH, d.level);
    gains & guards & in_range(-imax, imax, d.integ) & level
}
