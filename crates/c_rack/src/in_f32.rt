// A rack of f32 decoders.
ghost use Rattle.std.specs.Prelude.{◌≡◌, map};
ghost use Rattle.decoder_record.specs.Records.{pll_of_f32};
ghost use Rattle.decoder.specs.F32.{f32};
ghost use Rattle.rack_round.specs.Flat.{queues_of, flat_of};
ghost use Rattle.rack_round.specs.Wide.{round_wide};
ghost use Rattle.c_decoder.specs.Coded.{decoder_of_f32, taken_of, given_of};
ghost use Rattle.c_rack.specs.Coded.{coded_round};

use crate::shared::RackWaiting;
use answers::answer::{Code, code_of};
use c_decoder::in_f32::DecoderF32;
use decoder_record::pll_f32::StereoPllF32;

// The decoders in C, of which the first `number` are in use.
#[repr(C)]
#[derive(Clone, Copy)]
pub struct RackF32 {
    pub decoders: [DecoderF32; 8],
    pub number: usize,
}

// What a round answers, how many samples each decoder took, how many of its corrections took the wide
// way, and the rack after it.
#[repr(C)]
#[derive(Clone, Copy)]
pub struct RoundF32 {
    pub answer: Code,
    pub taken: [usize; 8],
    pub wide: [usize; 8],
    pub rack: RackF32,
}

// The machine's records from C's.
pub fn all_taken(decoders: [DecoderF32; 8]) -> [StereoPllF32; 8]
    ensures { map pll_of_f32 result ≡ map taken_of (map decoder_of_f32 decoders) }
{
    let first = StereoPllF32::from(decoders[0]);
    let mut records = [first; 8];
    for k in 0..8 {
        let d = decoders[k];
        records[k] = StereoPllF32::from(d);
    }
    records
}

// And back.
pub fn all_given(records: [StereoPllF32; 8]) -> [DecoderF32; 8]
    ensures { map decoder_of_f32 result ≡ map given_of (map pll_of_f32 records) }
{
    let first = DecoderF32::from(records[0]);
    let mut decoders = [first; 8];
    for k in 0..8 {
        let t = records[k];
        decoders[k] = DecoderF32::from(t);
    }
    decoders
}

// A round, the fast way.
#[unsafe(no_mangle)]
pub extern "C" fn pescrondilu_f32_rack_round(
    rack: RackF32,
    allowance: u32,
    waiting: RackWaiting,
    table: &[f32],
    mpx: &[f32],
    pilot: &[f32],
    sum: &mut [f32],
    difference: &mut [f32],
) -> RoundF32
    ensures leaves { record {
      answer = result.answer;
      taken = result.taken;
      sum = sum.new;
      difference = difference.new;
      decoders = map decoder_of_f32 result.rack.decoders;
      number = result.rack.number;
    }
        ≡ coded_round rack.number (flat_of f32 rack.number allowance table.now
        (map taken_of (map decoder_of_f32 rack.decoders)) waiting.decoders (record {
          mpx = mpx.now;
          pilot = pilot.now;
          sum = sum.old;
          difference = difference.old;
        })) }
    ensures wide { result.wide ≡ round_wide rack.number allowance table.now
        (map taken_of (map decoder_of_f32 rack.decoders)) (queues_of waiting.decoders (record {
          mpx = mpx.now;
          pilot = pilot.now;
          sum = sum.old;
          difference = difference.old;
        })) }
{
    let decoders = rack.decoders;
    let number = rack.number;
    let parts = waiting.decoders;
    let reply = rack::round(
        all_taken(decoders),
        number,
        allowance,
        parts,
        table,
        mpx,
        pilot,
        sum,
        difference,
    );
    let said = reply.answer;
    let counts = reply.taken;
    let wide = reply.wide;
    let next = reply.decoders;
    RoundF32 {
        answer: code_of(said),
        taken: counts,
        wide,
        rack: RackF32 {
            decoders: all_given(next),
            number,
        },
    }
}
