// Blocks: a word and its checkword.
ghost use Rattle.std.specs.Prelude.{◌≡◌};
ghost use Rattle.rds_blocks.specs.Blocks.{word_of, block_of};

use crate::division::remainder;

// The offset words, which tell a group's blocks apart. `CPrime` is for block three of a group that
// sends word one again there.
#[derive(Clone, Copy)]
pub enum Offset {
    A,
    B,
    C,
    CPrime,
    D,
}

pub fn offset_word(offset: Offset) -> u32
    ensures { result ≡ word_of offset }
{
    match offset {
        Offset::A => 0x0FC,
        Offset::B => 0x198,
        Offset::C => 0x168,
        Offset::CPrime => 0x350,
        Offset::D => 0x1B4,
    }
}

// A block's 26 places: the word, then its check exclusive-or the offset word.
pub fn block(word: u16, offset: Offset) -> u32
    ensures { result ≡ block_of word offset }
{
    let w = word as u32;
    w * 1024 + (remainder(w * 1024) ^ offset_word(offset))
}
