// The end of a half-cycle of a three-phase logger: a part of each channel, the values that end with it, and their records.
// Not one with `feed`'s `complete`, nor is `three_feed`'s `walk` with its: three channels share one signal and one cut, so that what is kept, what is due and what
// is pushed differ. Only the walk's outline is alike, and its laws stand once, in `greedy`.
#![tactic(auto)]

ghost use Rattle.std.specs.Prelude.{◌≡◌, ◌*◌, ◌^◌, ◌≤◌, ◌<◌};
ghost use Rattle.reading.specs.Values.{rms};
ghost use Rattle.joint.specs.Joint.{Small3, pushed_all};
ghost use Rattle.three_state.specs.ThreeState.{three_with};
ghost use Rattle.three_state.specs.ThreeStep.{with_halves};
ghost use Rattle.three_half.specs.Halves.{HalfReady, half_of, half_outcome, SumsFit, ValuesReady, values_by};

use joint::{Joint, JointSums, Values};
use reading::{LAST_VALUE, Stop};
use records::RECORD_LENGTH;
use rms::{Gatherer, Part};
use settings::{Scaled, Settings};
use three_reading::Three;

// What a half-cycle that is taken leaves of the logger beside the gatherers and the windows, the windows' sums, and how many records were written.
#[derive(Clone, Copy)]
pub struct Half {
    pub joint: Joint,
    pub sums: JointSums,
    pub written: usize,
}

// The value that ends with a half-cycle of one channel, sought near the value before.
fn value_of(
    settings: Settings,
    gatherer: Gatherer,
    half: Gatherer,
    window: &[u32; 120],
    count: u64,
) -> u32
    requires { (0 < settings.samples) × (settings.samples ≤ 256) × (gatherer.last ≤ settings.samples * 2 ^ 30) × (half.last ≤ settings.samples * 2 ^ 30) }
    ensures { (result ≡ rms settings.samples gatherer.last half.last) × (result ≤ 524288) }
{
    let near = window::newest(window, settings.window_length(), count);
    rms::rms_value(settings.samples, gatherer.last, half.last, near)
}

// The gatherers with a part of each channel that ends the half-cycle in progress.
pub fn halves_of(gatherers: Three<Gatherer>, parts: Three<Part>) -> Three<Gatherer>
    requires { SumsFit gatherers parts }
    ensures { result ≡ with_halves gatherers parts }
{
    Three {
        a: gatherers.a.with_half(parts.a),
        b: gatherers.b.with_half(parts.b),
        c: gatherers.c.with_half(parts.c),
    }
}

// The values that end with the half-cycles of `halves`: a joint value is clipped if any channel's is. One by one, here and below: `map` would copy each window.
fn values_of(
    settings: Settings,
    gatherers: Three<Gatherer>,
    halves: Three<Gatherer>,
    windows: &Three<[u32; 120]>,
    count: u64,
) -> Values
    requires { ValuesReady settings gatherers halves }
    ensures { (result ≡ values_by settings.samples gatherers halves) × Small3 result.sizes }
{
    Values {
        sizes: Three {
            a: value_of(settings, gatherers.a, halves.a, &windows.a, count),
            b: value_of(settings, gatherers.b, halves.b, &windows.b, count),
            c: value_of(settings, gatherers.c, halves.c, &windows.c, count),
        },
        clipped: (gatherers.a.last_clipped | halves.a.last_clipped)
            | ((gatherers.b.last_clipped | halves.b.last_clipped)
                | (gatherers.c.last_clipped | halves.c.last_clipped)),
    }
}

// Each channel's value joins its window.
fn push_values(
    window_length: usize,
    count: usize,
    windows: &mut Three<[u32; 120]>,
    sizes: Three<u32>,
)
    requires { (0 < window_length) × (window_length ≤ 120) }
    ensures { windows.new ≡ pushed_all window_length count windows.old sizes }
{
    window::push(&mut windows.a, window_length, count, sizes.a);
    window::push(&mut windows.b, window_length, count, sizes.b);
    window::push(&mut windows.c, window_length, count, sizes.c);
}

// A part of each channel ends the half-cycle in progress. Nothing changes where V would pass its end or the records do not fit.
pub fn complete(
    settings: Settings,
    scaled: Scaled,
    gatherers: Three<Gatherer>,
    joint: Joint,
    sums: JointSums,
    windows: &mut Three<[u32; 120]>,
    marks: &mut [u8; 120],
    parts: Three<Part>,
    records: &mut [u8],
) -> Result<Half, Stop>
    requires { HalfReady settings scaled gatherers joint sums windows.old marks.old parts }
    ensures { half_of settings gatherers joint sums parts result windows.new marks.new records.new
        ≡ half_outcome (three_with settings gatherers joint windows.old marks.old) parts records.old }
{
    let halves = halves_of(gatherers, parts);
    if !gatherers.a.whole {
        return Ok(Half {
            joint,
            sums,
            written: 0,
        });
    }
    let count = joint.count;
    if count == LAST_VALUE {
        return Err(Stop::End);
    }
    let values = values_of(settings, gatherers, halves, windows, count);
    let tried = joint.try_values(settings, scaled, windows, marks, sums, values);
    let due = tried.due;
    let written = due.count();
    if records.len() / RECORD_LENGTH < written {
        return Err(Stop::Room);
    }
    let length = settings.window_length() as usize;
    push_values(length, count as usize, windows, values.sizes);
    window::push_mark(
        marks,
        length,
        count as usize,
        sums.marks,
        u8::from(values.clipped),
    );
    due.put(records);
    Ok(Half {
        joint: tried.after,
        sums: tried.sums,
        written,
    })
}
