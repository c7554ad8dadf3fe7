// Switches in C's records.
ghost use Rattle.std.specs.Prelude.{◌≡◌};
ghost use Rattle.answers.specs.Coded.{on_at, switch_of};

// A switch is off at 0 and on at anything else, so that no number is undefined, as 2 is in a bool.
pub fn is_on(x: u32) -> bool
    ensures { result ≡ on_at x }
{
    x != 0
}

pub fn switch_of(b: bool) -> u32
    ensures { result ≡ switch_of b }
{
    u32::from(b)
}
