// Rapid voltage changes: the steady signal, the phase with what a change in progress carries, and one value's step of each.
#![tactic(auto)]

ghost use Rattle.std.specs.Prelude.{◌≡◌, slice_index, if◌then◌else◌};
ghost use Rattle.numbers.specs.Notation.{◌<ᵇ◌};
ghost use Rattle.reading.specs.Readings.{phase_kind_number};
ghost use Rattle.rvc.specs.Signal.{limit_of, held_at, steady_by, signal_after, TestReady};
ghost use Rattle.rvc.specs.Phase.{change_from, grown, closing, signal_in, onward, ended_of, moved_by, moved_on, phase_row, ChangeReady, Joins};

use reading::{Event, PhaseKind, Record};
use settings::Scaled;

// The steady signal, with what must be kept of it: fewer than N values; never yet true; true; false since value k. It is no `Phase<u64>` with `Phase<Change>`
// below: each method matches on one of the two only, so type arguments at every use would be all that one type brings.
#[derive(Clone, Copy)]
pub enum Signal {
    Filling,
    Unsettled,
    Steady,
    Changing(u64),
}

// A change in progress.
#[derive(Clone, Copy)]
pub struct Change {
    // 01's k, the value at which the steady signal turned false.
    pub start: u64,
    // A(k − 1), the sum of the window before it.
    pub sum: u64,
    // The greatest difference from that of a value, times N, over k to V − N.
    pub difference: u64,
    // The first value from k on at which a dip or a swell first stands, or 0; k where one stands at k − 1. A number, as `change_row` and `change_rule` have it.
    pub stand: u64,
    // Whether a value from k to V − N is clipped.
    pub clipped: bool,
}

// Fewer than N values; never yet steady; steady; in a change.
#[derive(Clone, Copy)]
pub enum Phase {
    Filling,
    Unsettled,
    Steady,
    Changing(Change),
}

// The dips and swells at a value.
#[derive(Clone, Copy)]
pub struct Stands {
    // Whether one first stands at it.
    pub first: bool,
    // Whether one stands at the value before it.
    pub before: bool,
}

// A value that joins the window.
#[derive(Clone, Copy)]
pub struct Joining {
    // Its number, from 1.
    pub number: u64,
    pub value: u32,
    // The value that leaves the window, and its mark, 0 where none does. The mark is a number, as `joining_of` reads it from a list of them.
    pub leaving: u64,
    pub mark: u64,
    // The window's sum before it, and with it.
    pub before: u64,
    pub after: u64,
    // The dips and swells at it.
    pub stands: Stands,
}

// The phase after a value, and the record of a change that ends with it, if one does.
#[derive(Clone, Copy)]
pub struct Moved {
    pub phase: Phase,
    pub ended: Option<Record>,
}

// The stand that a change keeps: the one that it has, else value i, where `stands` says so, else 0.
fn kept_stand(kept: u64, stands: bool, i: u64) -> u64
    ensures { result ≡ (if 0 <ᵇ kept then kept else if stands then i else 0) }
{
    if 0 < kept {
        return kept;
    }
    if stands { i } else { 0 }
}

impl Signal {
    // The limit in force.
    fn limit(self, scaled: Scaled) -> u64
        ensures { result ≡ limit_of scaled self }
    {
        match self {
            Signal::Filling | Signal::Unsettled | Signal::Steady => scaled.limit,
            Signal::Changing(_) => scaled.limit.saturating_sub(scaled.reduction),
        }
    }

    // Whether it is false at value i, whatever the window: while it fills, and in a change up to k + N.
    fn holds(self, window_length: u64, i: u64) -> bool
        ensures { result ≡ held_at window_length i self }
    {
        match self {
            Signal::Filling => i < window_length,
            Signal::Unsettled | Signal::Steady => false,
            Signal::Changing(start) => i.saturating_sub(start) <= window_length,
        }
    }

    // Whether it is true at a value that joins the window, whose other values are `part`. While it is held the window is not looked at.
    pub fn is_true(self, scaled: Scaled, window_length: u64, part: &[u32], joining: Joining) -> bool
        requires { TestReady scaled window_length joining.after self }
        ensures { result ≡ steady_by scaled window_length part.now joining.number joining.value joining.after self }
    {
        if self.holds(window_length, joining.number) {
            return false;
        }
        let limit = self.limit(scaled);
        window::calm(part, joining.value, window_length, joining.after, limit)
    }

    // After value i, at which it is true or not.
    pub fn after(self, window_length: u64, i: u64, truth: bool) -> Signal
        ensures { result ≡ signal_after window_length i truth self }
    {
        if truth {
            return Signal::Steady;
        }
        match self {
            Signal::Filling => {
                if i < window_length {
                    Signal::Filling
                } else {
                    Signal::Unsettled
                }
            }
            Signal::Unsettled => Signal::Unsettled,
            Signal::Steady => Signal::Changing(i),
            Signal::Changing(start) => Signal::Changing(start),
        }
    }
}

impl Change {
    // A change that begins with a value.
    fn begin(joining: Joining) -> Change
        ensures { result ≡ change_from joining }
    {
        let stands = joining.stands;
        let stand = kept_stand(0, stands.first | stands.before, joining.number);
        Change {
            start: joining.number,
            sum: joining.before,
            difference: 0,
            stand,
            clipped: false,
        }
    }

    // With a value more. The one that leaves the window counts once it is one of the change's own.
    fn with_value(self, window_length: u64, joining: Joining) -> Change
        requires { ChangeReady window_length joining }
        ensures { result ≡ grown window_length joining self }
    {
        let stand = kept_stand(self.stand, joining.stands.first, joining.number);
        let age = joining.number.saturating_sub(self.start);
        if age < window_length {
            return Change { stand, ..self };
        }
        let difference = (window_length * joining.leaving).abs_diff(self.sum);
        Change {
            difference: difference.max(self.difference),
            stand,
            clipped: (joining.mark == 1) | self.clipped,
            ..self
        }
    }

    // Its record, over with a value; none where the stand that is kept is before the window.
    fn event(self, window_length: u64, joining: Joining) -> Option<Record>
        ensures { result ≡ closing window_length joining self }
    {
        let settled = joining.number.saturating_sub(window_length);
        if (0 < self.stand) & (self.stand <= settled) {
            return None;
        }
        let event = Event {
            kind: Event::CHANGE,
            start: self.start,
            duration: settled.saturating_sub(self.start),
            first: self.difference,
            second: joining.after.abs_diff(self.sum),
        };
        Some(Record {
            event,
            clipped: self.clipped,
        })
    }
}

impl Phase {
    // Which phase it is, without what a change carries.
    pub fn kind(self) -> PhaseKind
        ensures { phase_kind_number result ≡ slice_index (phase_row self) 0 }
    {
        match self {
            Phase::Filling => PhaseKind::Filling,
            Phase::Unsettled => PhaseKind::Unsettled,
            Phase::Steady => PhaseKind::Steady,
            Phase::Changing(_) => PhaseKind::Changing,
        }
    }

    // The signal that it stands under.
    pub fn signal(self) -> Signal
        ensures { result ≡ signal_in self }
    {
        match self {
            Phase::Filling => Signal::Filling,
            Phase::Unsettled => Signal::Unsettled,
            Phase::Steady => Signal::Steady,
            Phase::Changing(change) => Signal::Changing(change.start),
        }
    }

    // After a value at which the signal is false.
    fn onward(self, window_length: u64, joining: Joining) -> Phase
        requires { ChangeReady window_length joining }
        ensures { result ≡ onward window_length joining self }
    {
        match self {
            Phase::Filling => {
                if joining.number < window_length {
                    Phase::Filling
                } else {
                    Phase::Unsettled
                }
            }
            Phase::Unsettled => Phase::Unsettled,
            Phase::Steady => Phase::Changing(Change::begin(joining)),
            Phase::Changing(change) => Phase::Changing(change.with_value(window_length, joining)),
        }
    }

    // The record of a change that ends with a value, at which the signal is true.
    fn ended(self, window_length: u64, joining: Joining) -> Option<Record>
        requires { ChangeReady window_length joining }
        ensures { result ≡ ended_of window_length joining self }
    {
        match self {
            Phase::Filling | Phase::Unsettled | Phase::Steady => None,
            Phase::Changing(change) => change
                .with_value(window_length, joining)
                .event(window_length, joining),
        }
    }

    // After a value at which the signal is true or not: its own, or one that several channels share.
    pub fn moved(self, window_length: u64, joining: Joining, steady: bool) -> Moved
        requires { ChangeReady window_length joining }
        ensures { result ≡ moved_by window_length joining steady self }
    {
        if steady {
            let ended = self.ended(window_length, joining);
            return Moved {
                phase: Phase::Steady,
                ended,
            };
        }
        let phase = self.onward(window_length, joining);
        Moved { phase, ended: None }
    }

    // After a value, the newest of a window whose other values are `part`, under its own signal.
    pub fn step(self, scaled: Scaled, window_length: u64, part: &[u32], joining: Joining) -> Moved
        requires { Joins scaled window_length joining self }
        ensures { result ≡ moved_on scaled window_length part.now joining self }
    {
        let signal = self.signal();
        let steady = signal.is_true(scaled, window_length, part, joining);
        self.moved(window_length, joining, steady)
    }
}
