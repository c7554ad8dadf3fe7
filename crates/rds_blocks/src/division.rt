// Division over bits: what the generator leaves of a number.
ghost use Rattle.std.specs.Prelude.{◌≡◌};
ghost use Rattle.rds_blocks.specs.Division.{bit, remainder_of};

// z^10 + z^8 + z^7 + z^5 + z^4 + z^3 + 1, the coefficient of z^k in bit k.
pub const GENERATOR: u32 = 0x5B9;

// Whether x has the place z^k.
pub fn has_place(x: u32, k: u32) -> bool
    ensures { result ≡ bit k x }
{
    if k < 32 { (x >> k) % 2 == 1 } else { false }
}

// What the generator leaves of a number of 32 places, by long division.
pub fn remainder(number: u32) -> u32
    ensures { result ≡ remainder_of number }
{
    let mut x = number;
    for n in (0..22).rev() {
        if has_place(x, n + 10) {
            x = x ^ (GENERATOR << n);
        }
    }
    x
}
