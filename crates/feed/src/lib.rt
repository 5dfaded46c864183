// Feed: a block of samples, half-cycle by half-cycle. Each is taken with the records due at its value, or it is not taken, nothing changes, and the feed ends.
#![tactic(auto)]

ghost use Rattle.std.specs.Prelude.{◌≡◌, ◌+◌, ◌*◌, ◌^◌, ◌≤◌, length};
ghost use Rattle.reading.specs.Told.{told_in};
ghost use Rattle.rms.specs.Gather.{part_of};
ghost use Rattle.state.specs.State.{state_with, ValidState};
ghost use Rattle.state.specs.Calls.{fed_with};
ghost use Rattle.feed.specs.Feed.{HalfReady, half_of, half_outcome, walked_with, fed_to};

use detection::Detector;
use reading::{LAST_VALUE, Stop, Told};
use records::RECORD_LENGTH;
use rms::{Gatherer, Marked, Part};
use settings::{Scaled, Settings};
use state::State;
use window::Sums;

// What a half-cycle that is taken leaves of the logger beside the window, the window's sums, and how many records were written.
#[derive(Clone, Copy)]
struct Half {
    gatherer: Gatherer,
    detector: Detector,
    sums: Sums,
    written: usize,
}

// A part ends the half-cycle in progress; `sums` are the window's. Nothing changes where V would pass its end or the records do not fit. The logger's parts come one by
// one: the walk keeps them as locals, and the window and marks are written in place. A shorter function would take the same parts again.
fn complete(
    settings: Settings,
    scaled: Scaled,
    gatherer: Gatherer,
    detector: Detector,
    sums: Sums,
    window: &mut [u32; 120],
    marks: &mut [u8; 120],
    part: Part,
    records: &mut [u8],
) -> Result<Half, Stop>
    requires { HalfReady settings scaled gatherer detector sums window.old marks.old part }
    ensures { half_of settings gatherer detector sums result window.new marks.new records.new
        ≡ half_outcome (state_with settings gatherer detector window.old marks.old) part records.old }
{
    let half = gatherer.with_half(part);
    let whole = gatherer.whole;
    if !whole {
        return Ok(Half {
            gatherer: half,
            detector,
            sums,
            written: 0,
        });
    }
    let count = detector.count;
    if count == LAST_VALUE {
        return Err(Stop::End);
    }
    let window_length = settings.window_length();
    let near = window::newest(window, window_length, count);
    let value = Marked {
        value: rms::rms_value(settings.samples, gatherer.last, half.last, near),
        clipped: gatherer.last_clipped | half.last_clipped,
    };
    let tried = detector.try_value(settings, scaled, window, marks, sums, value);
    let written = tried.due.count();
    if records.len() / RECORD_LENGTH < written {
        return Err(Stop::Room);
    }
    let length = window_length as usize;
    window::push(window, length, count as usize, value.value);
    window::push_mark(
        marks,
        length,
        count as usize,
        sums.marks,
        u8::from(value.clipped),
    );
    tried.due.put(records);
    Ok(Half {
        gatherer: half,
        detector: tried.after,
        sums: tried.sums,
        written,
    })
}

// The end of a walk: the state with the samples that leave the half-cycle in progress. Its window and marks are shifted as the walk goes.
fn end_walk(state: &mut State, gatherer: Gatherer, detector: Detector, samples: &[i16])
    requires { (gatherer.count + length samples.now ≤ 256) × (gatherer.sum ≤ gatherer.count * 2 ^ 30) }
    ensures { (state.new ≡ walked_with state.old gatherer detector (part_of samples.now)) × ((part_of samples.now).squares ≤ length samples.now * 2 ^ 30) }
{
    let part = rms::sum_squares(samples);
    state.gatherer = gatherer.with_part(part);
    state.detector = detector;
}

// The greatest number of the block's samples that 01 allows, and their records: half-cycle by half-cycle, as long as the block ends one and it can be taken;
// then the samples that are left. Longer than the others: the loop's parts are locals, so that they stay in registers.
pub fn walk(state: &mut State, block: &[i16], records: &mut [u8]) -> Told
    requires { ValidState state.old }
    ensures { (fed_to state.new (told_in result) records.new ≡ fed_with state.old block.now records.old) × ValidState state.new }
{
    let settings = state.settings;
    let scaled = settings.scaled();
    let half_length = settings.samples;
    // Each half-cycle changes these: they stand beside the state until the walk ends.
    let mut g = state.gatherer;
    let mut d = state.detector;
    let mut sums = Sums {
        values: window::sum_of(&state.window),
        marks: window::sum_of(&state.marks),
    };
    let mut at: usize = 0;
    let mut written: usize = 0;
    let mut share = g.cut(half_length, block);
    while share.completes {
        let end = at + share.count;
        let behind = RECORD_LENGTH * written;
        let part = rms::sum_squares(&block[at..end]);
        match complete(
            settings,
            scaled,
            g,
            d,
            sums,
            &mut state.window,
            &mut state.marks,
            part,
            &mut records[behind..],
        ) {
            Err(stop) => {
                let taken = end - 1;
                end_walk(state, g, d, &block[at..taken]);
                return Told {
                    taken,
                    written,
                    why: Some(stop),
                };
            }
            Ok(half) => {
                g = half.gatherer;
                d = half.detector;
                sums = half.sums;
                written += half.written;
                at = end;
                share = g.cut(half_length, &block[at..]);
            }
        }
    }
    end_walk(state, g, d, &block[at..]);
    Told {
        taken: block.len(),
        written,
        why: None,
    }
}
