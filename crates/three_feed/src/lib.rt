// Feed of a three-phase logger: a block of triples, half-cycle by half-cycle, all three channels at once.
#![tactic(auto)]

ghost use Rattle.std.specs.Prelude.{◌≡◌, ◌/◌, ◌%◌, ◌<◌, length};
ghost use Rattle.reading.specs.Told.{told_in};
ghost use Rattle.rms.specs.Gather.{cut as cut_of};
ghost use Rattle.three_reading.specs.Three.{triples_of, channel};
ghost use Rattle.three_reading.specs.Three.Channel.{on_a};
ghost use Rattle.three_state.specs.ThreeState.{ValidThree};
ghost use Rattle.three_state.specs.ThreeFed.{three_fed_with};
ghost use Rattle.lanes.specs.Lanes.{SquaresFit};
ghost use Rattle.three_feed.specs.Feed.{RoomFor, walked_with, fed_to};

use joint::{Joint, JointSums};
use reading::{Stop, Told};
use records::RECORD_LENGTH;
use rms::{Gatherer, Share};
use three_reading::Three;
use three_state::ThreeState;

// Where the half-cycle in progress ends: all channels are cut where channel a is. The cut goes by the number of samples alone, so as many of the block's stand
// for channel a's.
fn cut_of(gatherer: Gatherer, half_length: u32, block: &[i16]) -> Share
    requires { gatherer.count < half_length }
    ensures { result ≡ cut_of half_length gatherer (channel on_a (triples_of block.now)) }
{
    let count = block.len() / 3;
    gatherer.cut(half_length, &block[..count])
}

// The end of a walk: the state with the triples that leave the half-cycle in progress. Its windows and marks are shifted as the walk goes. The lanes are room to
// work in; what is left there is of no use.
fn end_walk(
    state: &mut ThreeState,
    gatherers: Three<Gatherer>,
    joint: Joint,
    block: &[i16],
    lane_a: &mut [i16; 256],
    lane_b: &mut [i16; 256],
    lane_c: &mut [i16; 256],
)
    requires { (length block.now % 3 ≡ 0) × RoomFor gatherers (length block.now / 3) }
    ensures { (state.new ≡ walked_with state.old gatherers joint (triples_of block.now)) × SquaresFit (triples_of block.now) }
{
    let parts = lanes::parts_of(block, lane_a, lane_b, lane_c);
    state.gatherers = Three {
        a: gatherers.a.with_part(parts.a),
        b: gatherers.b.with_part(parts.b),
        c: gatherers.c.with_part(parts.c),
    };
    state.joint = joint;
}

// The greatest number of the block's triples that 02 allows, and their records: half-cycle by half-cycle, as long as the block ends one and it can be taken;
// then the triples that are left. What it tells is in triples.
pub fn walk(state: &mut ThreeState, block: &[i16], records: &mut [u8]) -> Told
    requires { ValidThree state.old × (length block.now % 3 ≡ 0) }
    ensures { (fed_to state.new (told_in result) records.new ≡ three_fed_with state.old (triples_of block.now) records.old) × ValidThree state.new }
{
    let settings = state.settings;
    let scaled = settings.scaled();
    let half_length = settings.samples;
    let triples = block.len() / 3;
    let mut lane_a = [0i16; 256];
    let mut lane_b = [0i16; 256];
    let mut lane_c = [0i16; 256];
    // Each half-cycle changes these: they stand beside the state until the walk ends.
    let mut g = state.gatherers;
    let mut kept = state.joint;
    let mut sums = JointSums {
        values: Three {
            a: window::sum_of(&state.windows.a),
            b: window::sum_of(&state.windows.b),
            c: window::sum_of(&state.windows.c),
        },
        marks: window::sum_of(&state.marks),
    };
    let mut at: usize = 0;
    let mut written: usize = 0;
    let mut share = cut_of(g.a, half_length, block);
    while share.completes {
        let end = at + share.count;
        let start = 3 * at;
        let stop = 3 * end;
        let behind = RECORD_LENGTH * written;
        let parts = lanes::parts_of(&block[start..stop], &mut lane_a, &mut lane_b, &mut lane_c);
        match three_half::complete(
            settings,
            scaled,
            g,
            kept,
            sums,
            &mut state.windows,
            &mut state.marks,
            parts,
            &mut records[behind..],
        ) {
            Err(stop) => {
                let taken = end - 1;
                let rest = 3 * taken;
                end_walk(
                    state,
                    g,
                    kept,
                    &block[start..rest],
                    &mut lane_a,
                    &mut lane_b,
                    &mut lane_c,
                );
                return Told {
                    taken,
                    written,
                    why: Some(stop),
                };
            }
            Ok(half) => {
                // Made again: carried through `complete`, the gatherers would be copied once more at every half-cycle.
                g = three_half::halves_of(g, parts);
                kept = half.joint;
                sums = half.sums;
                written += half.written;
                at = end;
                share = cut_of(g.a, half_length, &block[stop..]);
            }
        }
    }
    let start = 3 * at;
    end_walk(
        state,
        g,
        kept,
        &block[start..],
        &mut lane_a,
        &mut lane_b,
        &mut lane_c,
    );
    Told {
        taken: triples,
        written,
        why: None,
    }
}
