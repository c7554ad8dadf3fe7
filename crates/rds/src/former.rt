// The group former.
ghost use Rattle.std.specs.Prelude.{◌≡◌, length};
ghost use Rattle.answers.specs.Answer.{says};
ghost use Rattle.rds_blocks.specs.Blocks.{block_bits};
ghost use Rattle.rds.specs.Coding.{byte_of, sent_of};
ghost use Rattle.rds.specs.Former.{fresh, version_b, third, repeats, plain_of, group_of};

use answers::answer::Refusal;
use rds_blocks::blocks::{Offset, block};
use rds_blocks::division::has_place;

// A group's bits.
pub const BITS: usize = 104;

// The four words of a group.
#[repr(C)]
#[derive(Clone, Copy)]
pub struct RdsWords {
    pub one: u16,
    pub two: u16,
    pub three: u16,
    pub four: u16,
}

// The former's record: the output bit before the next group's first.
#[derive(Clone, Copy)]
pub struct RdsFormer {
    pub carried: bool,
}

// What a group's call answers, and the former after it.
#[derive(Clone, Copy)]
pub struct GroupReply {
    pub answer: Result<(), Refusal>,
    pub former: RdsFormer,
}

impl RdsFormer {
    // A fresh former has sent nothing: its previous output bit is 0.
    pub fn new() -> RdsFormer
        ensures { result.carried ≡ fresh }
    {
        RdsFormer { carried: false }
    }
}

// A group of version B sends word one in block three too; bit 11 of word two says so.
fn is_version_b(words: RdsWords) -> bool
    ensures { result ≡ version_b words }
{
    has_place(words.two as u32, 11)
}

// Block three's offset word.
fn third_offset(words: RdsWords) -> Offset
    ensures { result ≡ third words }
{
    if is_version_b(words) {
        Offset::CPrime
    } else {
        Offset::C
    }
}

// Whether word three is what its offset word asks for.
fn is_repeated(words: RdsWords) -> bool
    ensures { result ≡ repeats words }
{
    if is_version_b(words) {
        words.three == words.one
    } else {
        true
    }
}

// A bit as a byte.
fn byte(b: bool) -> u8
    ensures { result ≡ byte_of b }
{
    u8::from(b)
}

// A block's 26 bits, the highest first, each exclusive-or the output bit before it; the last output bit.
fn send(previous: bool, word: u16, offset: Offset, output: &mut [u8]) -> bool
    requires { length output.old ≡ 26 }
    ensures { record { output = output.new; carried = result }
        ≡ sent_of previous (block_bits word offset) }
{
    let x = block(word, offset);
    let mut last = previous;
    for n in (0..26).rev() {
        let bit = has_place(x, n);
        let next = last != bit;
        output[(25 - n) as usize] = byte(next);
        last = next;
    }
    last
}

// A group's four blocks.
fn send_blocks(carried: bool, words: RdsWords, output: &mut [u8]) -> bool
    requires { length output.old ≡ 104 }
    ensures { record { output = output.new; carried = result } ≡ sent_of carried (plain_of words) }
{
    let one = send(carried, words.one, Offset::A, &mut output[0..26]);
    let two = send(one, words.two, Offset::B, &mut output[26..52]);
    let three = send(two, words.three, third_offset(words), &mut output[52..78]);
    send(three, words.four, Offset::D, &mut output[78..104])
}

// Four words become 104 bits in the output, a bit a byte.
pub fn group(former: RdsFormer, words: RdsWords, output: &mut [u8]) -> GroupReply
    ensures { record {
      said = says result.answer;
      sent = record { output = output.new; carried = result.former.carried };
    }
        ≡ group_of former.carried words output.old }
{
    let n = output.len();
    if n != BITS {
        return GroupReply {
            answer: Err(Refusal::Output(BITS, n)),
            former,
        };
    }
    if !is_repeated(words) {
        return GroupReply {
            answer: Err(Refusal::WordThree),
            former,
        };
    }
    let carried = send_blocks(former.carried, words, output);
    GroupReply {
        answer: Ok(()),
        former: RdsFormer { carried },
    }
}
