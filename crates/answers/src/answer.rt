// What a call answers, and the rule of the lengths.
ghost use Rattle.std.specs.Prelude.{◌≡◌, cond, eqb};
ghost use Rattle.answers.specs.Answer.{
  accepted,
  says,
  says_refusal,
  number_of,
  or_else,
  table_rule,
  input_rule,
  output_rule,
  code_of,
};

// The entries of a table: one turn in 4096 steps, and the first entry again.
pub const ENTRIES: usize = 4097;

// Why a call is turned back: document 01's causes in the order of their numbers, and document 02's.
#[derive(Clone, Copy)]
pub enum Refusal {
    // a Q15 decoder's record is unfit
    Unfit,
    Rate,
    PilotFrequency,
    NaturalFrequency,
    PilotLevel,
    LockCoefficient,
    // a gain becomes 0 or not finite as an f32
    Narrow,
    // in Q15 a value or a guard passes an i64
    Wide,
    // in Q15 ki or beta becomes 0
    ZeroGain,
    // the table's length
    Table(usize),
    // the first input's length, and that of the input at fault
    Input(usize, usize),
    // the first input's length, and that of the output at fault
    Output(usize, usize),
    EncoderPilot,
    MainGain,
    PilotAmplitude,
    EncoderRate,
    RdsLevel,
    // an oscillator's frequency over its rate is not finite
    Cycles,
    // a value lies outside Q14
    OutsideQ14,
    // word three differs from word one where C' is taken
    WordThree,
    // a summary's record is none that a call leaves
    Summary,
    // a rack's number of decoders is not 2 to 8
    Number,
    // a rack's allowance is smaller than its number of decoders
    Allowance,
}

// An answer in three numbers, for C and for lists of answers: 0, or 100 and the cause's number; then
// the two lengths, 0 where there are none.
#[repr(C)]
#[derive(Clone, Copy)]
pub struct Code {
    pub code: u32,
    pub expected: usize,
    pub got: usize,
}

impl Refusal {
    // The cause's number.
    pub fn number(self) -> u32
        ensures { result ≡ number_of self }
    {
        match self {
            Refusal::Unfit => 0,
            Refusal::Rate => 1,
            Refusal::PilotFrequency => 2,
            Refusal::NaturalFrequency => 3,
            Refusal::PilotLevel => 4,
            Refusal::LockCoefficient => 5,
            Refusal::Narrow => 6,
            Refusal::Wide => 7,
            Refusal::ZeroGain => 8,
            Refusal::Table(_) => 9,
            Refusal::Input(_, _) => 10,
            Refusal::Output(_, _) => 11,
            Refusal::EncoderPilot => 12,
            Refusal::MainGain => 13,
            Refusal::PilotAmplitude => 14,
            Refusal::EncoderRate => 15,
            Refusal::RdsLevel => 16,
            Refusal::Cycles => 17,
            Refusal::OutsideQ14 => 18,
            Refusal::WordThree => 19,
            Refusal::Summary => 20,
            Refusal::Number => 21,
            Refusal::Allowance => 22,
        }
    }

    // The refusal in three numbers.
    pub fn code(self) -> Code
        ensures { result ≡ code_of (says_refusal self) }
    {
        let code = 100 + self.number();
        match self {
            Refusal::Table(n) => Code {
                code,
                expected: ENTRIES,
                got: n,
            },
            Refusal::Input(first, n) => Code {
                code,
                expected: first,
                got: n,
            },
            Refusal::Output(first, n) => Code {
                code,
                expected: first,
                got: n,
            },
            _ => Code {
                code,
                expected: 0,
                got: 0,
            },
        }
    }
}

// The refusal, where a length is not the one wanted.
fn length_rule(wanted: usize, n: usize, refusal: Refusal) -> Result<(), Refusal>
    ensures { says result ≡ cond (eqb n wanted) accepted (says_refusal refusal) }
{
    if n == wanted { Ok(()) } else { Err(refusal) }
}

// The table's length.
pub fn table_rule(n: usize) -> Result<(), Refusal>
    ensures { says result ≡ table_rule n }
{
    length_rule(ENTRIES, n, Refusal::Table(n))
}

// A further input's length, which is to be the first one's.
pub fn input_rule(first: usize, n: usize) -> Result<(), Refusal>
    ensures { says result ≡ input_rule first n }
{
    length_rule(first, n, Refusal::Input(first, n))
}

// An output's length, which is to be the first input's.
pub fn output_rule(first: usize, n: usize) -> Result<(), Refusal>
    ensures { says result ≡ output_rule first n }
{
    length_rule(first, n, Refusal::Output(first, n))
}

// The table's length, then that of the second input.
pub fn inputs_rule(table: usize, first: usize, second: usize) -> Result<(), Refusal>
    ensures { says result ≡ or_else (table_rule table) (input_rule first second) }
{
    table_rule(table)?;
    input_rule(first, second)
}

pub fn code_of(answer: Result<(), Refusal>) -> Code
    ensures { result ≡ code_of (says answer) }
{
    match answer {
        Ok(()) => Code {
            code: 0,
            expected: 0,
            got: 0,
        },
        Err(refusal) => refusal.code(),
    }
}
