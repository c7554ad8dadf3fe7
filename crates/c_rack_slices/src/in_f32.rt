// A rack of f32 decoders that have slices of their own.
ghost use Rattle.std.specs.Prelude.{◌≡◌, map};
ghost use Rattle.decoder.specs.F32.{f32};
ghost use Rattle.rack_round.specs.Wide.{round_wide};
ghost use Rattle.rack_slices_round.specs.Slices.{addresses_of, queues_at, slices_of};
ghost use Rattle.c_decoder.specs.Coded.{decoder_of_f32, taken_of};
ghost use Rattle.c_rack_slices.specs.Coded.{coded_slices};

use answers::answer::code_of;
use c_rack::in_f32::{RackF32, RoundF32, all_given, all_taken};

// A round, the fast way.
#[unsafe(no_mangle)]
pub extern "C" fn pescrondilu_f32_rack_round_slices(
    rack: RackF32,
    allowance: u32,
    table: &[f32],
    mpx: &[&[f32]],
    pilot: &[&[f32]],
    sum: &mut [&mut [f32]],
    difference: &mut [&mut [f32]],
) -> RoundF32
    ensures leaves { (record {
      answer = result.answer;
      taken = result.taken;
      sum = map (λ x. x.now) sum.new;
      difference = map (λ x. x.now) difference.new;
      decoders = map decoder_of_f32 result.rack.decoders;
      number = result.rack.number;
    }
        ≡ coded_slices rack.number (slices_of f32 rack.number allowance table.now
        (map taken_of (map decoder_of_f32 rack.decoders)) (record {
          mpx = map (λ x. x.now) mpx.now;
          pilot = map (λ x. x.now) pilot.now;
          sum = map (λ x. x.now) sum.old;
          difference = map (λ x. x.now) difference.old;
        })))
        × (addresses_of sum.new ≡ addresses_of sum.old)
        × (addresses_of difference.new ≡ addresses_of difference.old) }
    ensures wide { result.wide ≡ round_wide rack.number allowance table.now
        (map taken_of (map decoder_of_f32 rack.decoders)) (queues_at (record {
          mpx = map (λ x. x.now) mpx.now;
          pilot = map (λ x. x.now) pilot.now;
          sum = map (λ x. x.now) sum.old;
          difference = map (λ x. x.now) difference.old;
        })) }
{
    let decoders = rack.decoders;
    let number = rack.number;
    let reply = rack_slices::round(
        all_taken(decoders),
        number,
        allowance,
        table,
        mpx,
        pilot,
        sum,
        difference,
    );
    let said = reply.answer;
    let counts = reply.taken;
    let wide = reply.wide;
    let next = reply.decoders;
    RoundF32 {
        answer: code_of(said),
        taken: counts,
        wide,
        rack: RackF32 {
            decoders: all_given(next),
            number,
        },
    }
}
