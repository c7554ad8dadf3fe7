// What the former answers to a line, as words.
use answers::answer::code_of;
use rds::former::{GroupReply, RdsFormer, RdsWords};

// The five answers of a line.
#[derive(Clone, Copy)]
pub struct Answers {
    // the answer's number
    pub code: u64,
    // its lengths: the expected one above 32 bits of the other
    pub lengths: u64,
    // the first 52 bits of the output, and the last
    pub first: u64,
    pub last: u64,
    // twice the bytes that still hold 9, plus the carried bit
    pub left: u64,
}

#[derive(Clone, Copy)]
pub struct Called {
    pub answers: Answers,
    pub former: RdsFormer,
}

// The buffer's length: a call's output is its first bytes.
const ROOM: usize = 208;

// Word k of four, word 0 in the highest 16 bits.
fn quarter(words: u64, k: u64) -> u16 {
    ((words >> (48 - 16 * (k % 4))) % 65536) as u16
}

fn words_of(words: u64) -> RdsWords {
    RdsWords {
        one: quarter(words, 0),
        two: quarter(words, 1),
        three: quarter(words, 2),
        four: quarter(words, 3),
    }
}

fn call(former: RdsFormer, words: RdsWords, length: usize, room: &mut [u8]) -> GroupReply {
    if length < room.len() {
        return rds::former::group(former, words, &mut room[0..length]);
    }
    rds::former::group(former, words, room)
}

fn wide(b: u8) -> u64 {
    b as u64
}

// 52 bits from a place on, the first one highest.
fn packed(room: &[u8; 208], from: usize) -> u64 {
    let mut x = 0u64;
    for k in 0..52usize {
        x = (x << 1) ^ wide(room[(from % 104) + k]);
    }
    x
}

// How many bytes still hold 9.
fn untouched(room: &[u8; 208]) -> u64 {
    let mut n = 0u64;
    for k in 0..208usize {
        if room[k] == 9 {
            n = std::num::wrapping_add_u64(n, 1);
        }
    }
    n
}

fn halves(accepted: bool, room: &[u8; 208], from: usize) -> u64 {
    if accepted { packed(room, from) } else { 0 }
}

pub(crate) fn group(former: RdsFormer, words: u64, length: u64) -> Called {
    let mut room = [9u8; ROOM];
    let reply = call(former, words_of(words), length as usize, &mut room);
    let said = reply.answer;
    let next = reply.former;
    let code = code_of(said);
    let accepted = said.is_ok();
    Called {
        answers: Answers {
            code: code.code as u64,
            lengths: ((code.expected as u64) << 32) ^ (code.got as u64),
            first: halves(accepted, &room, 0),
            last: halves(accepted, &room, 52),
            left: (untouched(&room) << 1) ^ test_words::words::word_bool(next.carried),
        },
        former: next,
    }
}
