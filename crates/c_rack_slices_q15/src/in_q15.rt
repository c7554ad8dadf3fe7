// A rack of Q15 decoders that have slices of their own.
ghost use Rattle.std.specs.Prelude.{◌≡◌, map};
ghost use Rattle.decoder_q15.specs.Q15.{q15};
ghost use Rattle.rack_slices_round.specs.Slices.{addresses_of, slices_of};
ghost use Rattle.c_decoder.specs.Coded.{taken_of};
ghost use Rattle.c_decoder_q15.specs.CodedQ15.{decoder_of_q15};
ghost use Rattle.c_rack_slices.specs.Coded.{coded_slices};

use answers::answer::code_of;
use c_rack_q15::in_q15::{RackQ15, RoundQ15, all_given, all_taken};

// A round, the fast way.
#[unsafe(no_mangle)]
pub extern "C" fn pescrondilu_q15_rack_round_slices(
    rack: RackQ15,
    allowance: u32,
    table: &[i16],
    mpx: &[&[i16]],
    pilot: &[&[i16]],
    sum: &mut [&mut [i16]],
    difference: &mut [&mut [i16]],
) -> RoundQ15
    ensures { (record {
      answer = result.answer;
      taken = result.taken;
      sum = map (λ x. x.now) sum.new;
      difference = map (λ x. x.now) difference.new;
      decoders = map decoder_of_q15 result.rack.decoders;
      number = result.rack.number;
    }
        ≡ coded_slices rack.number (slices_of q15 rack.number allowance table.now
        (map taken_of (map decoder_of_q15 rack.decoders)) (record {
          mpx = map (λ x. x.now) mpx.now;
          pilot = map (λ x. x.now) pilot.now;
          sum = map (λ x. x.now) sum.old;
          difference = map (λ x. x.now) difference.old;
        })))
        × (addresses_of sum.new ≡ addresses_of sum.old)
        × (addresses_of difference.new ≡ addresses_of difference.old) }
{
    let decoders = rack.decoders;
    let number = rack.number;
    let reply = rack_slices_q15::round(
        all_taken(decoders),
        number,
        allowance,
        table,
        mpx,
        pilot,
        sum,
        difference,
    );
    let said = reply.answer;
    let counts = reply.taken;
    let next = reply.decoders;
    RoundQ15 {
        answer: code_of(said),
        taken: counts,
        rack: RackQ15 {
            decoders: all_given(next),
            number,
        },
    }
}
