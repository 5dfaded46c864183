// One value: what is kept of the values beside the window, after it, and the records due at it.
#![tactic(auto)]

ghost use Rattle.std.specs.Prelude.{◌≡◌, ◌≤◌, ◌<◌, if◌then◌else◌};
ghost use Rattle.numbers.specs.Notation.{◌<ᵇ◌};
ghost use Rattle.threshold.specs.Standing.{begins_at, ends_at, stepped};
ghost use Rattle.window.specs.Window.{staying};
ghost use Rattle.reading.specs.Feed.{last_value};
ghost use Rattle.rvc.specs.Phase.{moved_on, Joins};
ghost use Rattle.detection.specs.Detection.{no_value, stands_at, joined_of, tried_by, WindowReady, TryReady};

use reading::{Event, Kind};
use records::Due;
use rms::Marked;
use rvc::{Joining, Moved, Phase, Stands};
use settings::{Scaled, Settings, Threshold};
use threshold::Standing;
use window::Sums;

// What is kept of the values beside the window: their count, the events that stand, and the phase. The events are fields and no array, as each has a kind and levels
// of its own, and `detector_of` and `readings_of` name it.
#[derive(Clone, Copy)]
pub struct Detector {
    pub count: u64,
    pub dip: Standing,
    pub swell: Standing,
    pub interruption: Standing,
    pub phase: Phase,
}

// The detector after a value, the records due at it, and the sums of the window with it.
#[derive(Clone, Copy)]
pub struct Tried {
    pub after: Detector,
    pub due: Due,
    pub sums: Sums,
}

// A value as it joins a window, and the sums of the window with it.
#[derive(Clone, Copy)]
pub struct Joined {
    pub joining: Joining,
    pub sums: Sums,
}

// An event of a kind after value i, by the kind's levels.
fn standing_after(before: Standing, kind: Kind, level: Threshold, i: u64, value: Marked) -> Standing
    requires { value.value ≤ 524288 }
    ensures { result ≡ stepped kind i value.value value.clipped (begins_at kind level value.value) (ends_at kind level value.value) before }
{
    let wide = u64::from(value.value);
    before.step(
        kind,
        i,
        wide,
        value.clipped,
        threshold::begins(kind, level, wide),
        threshold::ends(kind, level, wide),
    )
}

// The dips and swells at value i, from those before it and those after it.
pub fn stands_at(
    i: u64,
    dip_before: Standing,
    swell_before: Standing,
    dip: Standing,
    swell: Standing,
) -> Stands
    ensures { result ≡ stands_at i dip_before swell_before dip swell }
{
    Stands {
        first: (dip.start == i) | (swell.start == i),
        before: (0 < dip_before.start) | (0 < swell_before.start),
    }
}

// Where the values begin that stay in the window when one more comes after `count` of them.
pub fn first_staying(count: u64, window_length: u64) -> usize
    ensures { (result ≡ (if count <ᵇ window_length then 0 else 1)) × (result ≤ 1) }
{
    if count < window_length { 0 } else { 1 }
}

// What leaves the window or its marks then, of which `oldest` is the first; 0 where none does.
fn leaving(count: u64, window_length: u64, oldest: u64) -> u64
    ensures { result ≡ (if count <ᵇ window_length then 0 else oldest) }
{
    if count < window_length { 0 } else { oldest }
}

// A value that joins a window after `count` others, worked out from the window before it, its marks and its sums. The three come apart, here and below: the caller
// writes the first two in place, so a struct of them would be made anew for each value.
pub fn join_window(
    window_length: u64,
    count: u64,
    window: &[u32; 120],
    marks: &[u8; 120],
    sums: Sums,
    value: Marked,
    stands: Stands,
) -> Joined
    requires { (0 < window_length) × (window_length ≤ 120) × (count < last_value) × WindowReady window_length count window.now marks.now sums value }
    ensures { result ≡ joined_of window_length count window.now marks.now value stands }
{
    let leaves = leaving(count, window_length, u64::from(window[0]));
    let mark = leaving(count, window_length, u64::from(marks[0]));
    let after = sums.values - leaves + u64::from(value.value);
    let marked = sums.marks - mark + u64::from(value.clipped);
    let joining = Joining {
        number: count + 1,
        value: value.value,
        leaving: leaves,
        mark,
        before: sums.values,
        after,
        stands,
    };
    Joined {
        joining,
        sums: Sums {
            values: after,
            marks: marked,
        },
    }
}

impl Detector {
    pub fn new() -> Detector
        ensures { result ≡ no_value }
    {
        let none = Standing::none();
        Detector {
            count: 0,
            dip: none,
            swell: none,
            interruption: none,
            phase: Phase::Filling,
        }
    }

    // The phase after a value that joins the window, and the record of a change that ends with it.
    fn phase_after(
        self,
        scaled: Scaled,
        window_length: u64,
        window: &[u32; 120],
        joining: Joining,
    ) -> Moved
        requires { Joins scaled window_length joining self.phase }
        ensures { result ≡ moved_on scaled window_length (staying window_length self.count window.now) joining self.phase }
    {
        let first = first_staying(self.count, window_length);
        let end = first + (window_length as usize - 1);
        self.phase
            .step(scaled, window_length, &window[first..end], joining)
    }

    // One more value, worked out from the window before it, so that nothing has to be undone where its records do not fit. `scaled` is that of the settings, which
    // alone a state keeps: the caller works it out once for many values.
    pub fn try_value(
        self,
        settings: Settings,
        scaled: Scaled,
        window: &[u32; 120],
        marks: &[u8; 120],
        sums: Sums,
        value: Marked,
    ) -> Tried
        requires { TryReady settings scaled self window.now marks.now sums value }
        ensures { result ≡ tried_by settings value self window.now marks.now }
    {
        let i = self.count + 1;
        let dip = standing_after(self.dip, Kind::Dip, scaled.dip, i, value);
        let swell = standing_after(self.swell, Kind::Swell, scaled.swell, i, value);
        let interruption = standing_after(
            self.interruption,
            Kind::Interruption,
            scaled.interruption,
            i,
            value,
        );
        let window_length = settings.window_length();
        let stands = stands_at(i, self.dip, self.swell, dip, swell);
        let joined = join_window(
            window_length,
            self.count,
            window,
            marks,
            sums,
            value,
            stands,
        );
        let moved = self.phase_after(scaled, window_length, window, joined.joining);
        let after = Detector {
            count: i,
            dip,
            swell,
            interruption,
            phase: moved.phase,
        };
        let due = Due {
            dip: self.dip.ended(Event::DIP, i, dip),
            swell: self.swell.ended(Event::SWELL, i, swell),
            interruption: self
                .interruption
                .ended(Event::INTERRUPTION, i, interruption),
            change: moved.ended,
        };
        Tried {
            after,
            due,
            sums: joined.sums,
        }
    }
}
