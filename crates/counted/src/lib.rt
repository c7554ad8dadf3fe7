// What a fast f32 call answers: how many of its corrections took the wide way, or the refusal.
#![tactic(auto)]

ghost use Rattle.std.specs.Prelude.{◌≡◌};
ghost use Rattle.answers.specs.Answer.{says};
ghost use Rattle.counted.specs.Counted.{said_in, count_in, number_in};

use answers::answer::Refusal;

// The answer without the number.
pub fn answer_of(counted: Result<usize, Refusal>) -> Result<(), Refusal>
    ensures { says result ≡ said_in counted }
{
    counted?;
    Ok(())
}

// The number, and 0 where there is none.
pub fn wide_of(counted: Result<usize, Refusal>) -> usize
    ensures { result ≡ number_in (count_in counted) }
{
    counted.unwrap_or(0)
}
