// A rack of Q15 decoders.
ghost use Rattle.std.specs.Prelude.{◌≡◌, map};
ghost use Rattle.decoder_record_q15.specs.Records.{pll_of_q15};
ghost use Rattle.decoder_q15.specs.Q15.{q15};
ghost use Rattle.rack_round.specs.Flat.{flat_of};
ghost use Rattle.c_decoder.specs.Coded.{taken_of, given_of};
ghost use Rattle.c_decoder_q15.specs.CodedQ15.{decoder_of_q15};
ghost use Rattle.c_rack.specs.Coded.{coded_round};

use answers::answer::{Code, code_of};
use c_decoder_q15::in_q15::DecoderQ15;
use c_rack::shared::RackWaiting;
use decoder_record_q15::pll_q15::StereoPllQ15;

// The decoders in C, of which the first `number` are in use.
#[repr(C)]
#[derive(Clone, Copy)]
pub struct RackQ15 {
    pub decoders: [DecoderQ15; 8],
    pub number: usize,
}

// What a round answers, how many samples each decoder took, and the rack after it.
#[repr(C)]
#[derive(Clone, Copy)]
pub struct RoundQ15 {
    pub answer: Code,
    pub taken: [usize; 8],
    pub rack: RackQ15,
}

// The machine's records from C's.
pub fn all_taken(decoders: [DecoderQ15; 8]) -> [StereoPllQ15; 8]
    ensures { map pll_of_q15 result ≡ map taken_of (map decoder_of_q15 decoders) }
{
    let first = StereoPllQ15::from(decoders[0]);
    let mut records = [first; 8];
    for k in 0..8 {
        let d = decoders[k];
        records[k] = StereoPllQ15::from(d);
    }
    records
}

// And back.
pub fn all_given(records: [StereoPllQ15; 8]) -> [DecoderQ15; 8]
    ensures { map decoder_of_q15 result ≡ map given_of (map pll_of_q15 records) }
{
    let first = DecoderQ15::from(records[0]);
    let mut decoders = [first; 8];
    for k in 0..8 {
        let t = records[k];
        decoders[k] = DecoderQ15::from(t);
    }
    decoders
}

// A round, the fast way.
#[unsafe(no_mangle)]
pub extern "C" fn pescrondilu_q15_rack_round(
    rack: RackQ15,
    allowance: u32,
    waiting: RackWaiting,
    table: &[i16],
    mpx: &[i16],
    pilot: &[i16],
    sum: &mut [i16],
    difference: &mut [i16],
) -> RoundQ15
    ensures { record {
      answer = result.answer;
      taken = result.taken;
      sum = sum.new;
      difference = difference.new;
      decoders = map decoder_of_q15 result.rack.decoders;
      number = result.rack.number;
    }
        ≡ coded_round rack.number (flat_of q15 rack.number allowance table.now
        (map taken_of (map decoder_of_q15 rack.decoders)) waiting.decoders (record {
          mpx = mpx.now;
          pilot = pilot.now;
          sum = sum.old;
          difference = difference.old;
        })) }
{
    let decoders = rack.decoders;
    let number = rack.number;
    let parts = waiting.decoders;
    let reply = rack_q15::round(
        all_taken(decoders),
        number,
        allowance,
        parts,
        table,
        mpx,
        pilot,
        sum,
        difference,
    );
    let said = reply.answer;
    let counts = reply.taken;
    let next = reply.decoders;
    RoundQ15 {
        answer: code_of(said),
        taken: counts,
        rack: RackQ15 {
            decoders: all_given(next),
            number,
        },
    }
}
