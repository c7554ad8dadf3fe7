// The group former under C names, for a program in Rust or C to call. The former's record goes in and out by
// value, a slice is a pointer and then a length, and answers are numbers, as specs/Coded.antt defines them.
#![tactic(auto)]

ghost use Rattle.std.specs.Prelude.{◌≡◌};
ghost use Rattle.answers.specs.Coded.{on_at, switch_of};
ghost use Rattle.rds_blocks.specs.Division.{remainder_of};
ghost use Rattle.rds.specs.Former.{fresh, group_of};
ghost use Rattle.c_rds.specs.Coded.{coded_group};

use answers::answer::{Code, code_of};
use answers::switch::{is_on, switch_of};
use rds::former::{RdsFormer, RdsWords};

// The former's record in C.
#[repr(C)]
#[derive(Clone, Copy)]
pub struct Former {
    pub carried: u32,
}

// What a group's call answers, and the former after it.
#[repr(C)]
#[derive(Clone, Copy)]
pub struct FormerReply {
    pub answer: Code,
    pub former: Former,
}

// What the generator leaves of a number of 32 places; of a block it is the offset word that the block holds.
#[unsafe(no_mangle)]
pub extern "C" fn pescrondilu_rds_remainder(number: u32) -> u32
    ensures { result ≡ remainder_of number }
{
    rds_blocks::division::remainder(number)
}

#[unsafe(no_mangle)]
pub extern "C" fn pescrondilu_rds_former_new() -> Former
    ensures { result.carried ≡ switch_of fresh }
{
    let former = RdsFormer::new();
    Former {
        carried: switch_of(former.carried),
    }
}

// Four words become 104 bits in the output, a bit a byte.
#[unsafe(no_mangle)]
pub extern "C" fn pescrondilu_rds_group(
    former: Former,
    words: RdsWords,
    output: &mut [u8],
) -> FormerReply
    ensures { record { answer = result.answer; output = output.new; carried = result.former.carried }
        ≡ coded_group (group_of (on_at former.carried) words output.old) }
{
    let before = RdsFormer {
        carried: is_on(former.carried),
    };
    let reply = rds::former::group(before, words, output);
    let said = reply.answer;
    let next = reply.former;
    FormerReply {
        answer: code_of(said),
        former: Former {
            carried: switch_of(next.carried),
        },
    }
}
