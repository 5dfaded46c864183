// Dips, swells and interruptions: what is kept of each, and one value's step, the same for all three.
#![tactic(auto)]

ghost use Rattle.std.specs.Prelude.{◌≡◌, ◌≤◌};
ghost use Rattle.threshold.specs.Standing.{begins_at, ends_at, worse, no_event, worsened, stepped, ended_at};

use reading::{Event, Kind, Record};
use settings::Threshold;

// What is kept of an event: its start, its magnitude so far, and whether one of its values is clipped. 0, 0 and false where none stands, and no `Option`:
// `standing_rule`, which any image must meet, and `standing_since` speak of a start of 0.
#[derive(Clone, Copy)]
pub struct Standing {
    pub start: u64,
    pub magnitude: u64,
    pub clipped: bool,
}

// Whether a value is beyond the level at which an event begins. Values and levels are compared in 10,000ths.
pub fn begins(kind: Kind, level: Threshold, value: u64) -> bool
    requires { value ≤ 524288 }
    ensures { result ≡ begins_at kind level value }
{
    match kind {
        Kind::Dip | Kind::Interruption => 10_000 * value < level.begins,
        Kind::Swell => level.begins < 10_000 * value,
    }
}

// Whether a value is back at the level at which an event ends.
pub fn ends(kind: Kind, level: Threshold, value: u64) -> bool
    requires { value ≤ 524288 }
    ensures { result ≡ ends_at kind level value }
{
    match kind {
        Kind::Dip | Kind::Interruption => level.ends <= 10_000 * value,
        Kind::Swell => 10_000 * value <= level.ends,
    }
}

// The lower of two values of a dip or an interruption, the higher of a swell's.
pub fn worse_of(kind: Kind, a: u64, b: u64) -> u64
    ensures { result ≡ worse kind a b }
{
    match kind {
        Kind::Dip | Kind::Interruption => a.min(b),
        Kind::Swell => a.max(b),
    }
}

impl Standing {
    pub fn none() -> Standing
        ensures { result ≡ no_event }
    {
        Standing {
            start: 0,
            magnitude: 0,
            clipped: false,
        }
    }

    fn with_value(self, kind: Kind, value: u64, clipped: bool) -> Standing
        ensures { result ≡ worsened kind value clipped self }
    {
        let magnitude = worse_of(kind, value, self.magnitude);
        Standing {
            magnitude,
            clipped: clipped | self.clipped,
            ..self
        }
    }

    // After value i, which begins the event, ends it, or leaves it as it was. The two tests come from the caller, as three channels share theirs (`stepped`).
    #[tactic(auto, unfolding(crate::specs::Standing::stepped))]
    pub fn step(
        self,
        kind: Kind,
        i: u64,
        value: u64,
        clipped: bool,
        begins: bool,
        ends: bool,
    ) -> Standing
        ensures { result ≡ stepped kind i value clipped begins ends self }
    {
        if begins {
            if self.start == 0 {
                Standing {
                    start: i,
                    magnitude: value,
                    clipped,
                }
            } else {
                self.with_value(kind, value, clipped)
            }
        } else if ends | (self.start == 0) {
            Standing::none()
        } else {
            self.with_value(kind, value, clipped)
        }
    }

    // The record of the event that stood before value i and, as `after` says, stands no longer after it.
    pub fn ended(self, code: u8, i: u64, after: Standing) -> Option<Record>
        ensures { result ≡ ended_at code i self after }
    {
        if (0 < self.start) & (after.start == 0) {
            let event = Event {
                kind: code,
                start: self.start,
                duration: i.saturating_sub(self.start),
                first: self.magnitude,
                second: 0,
            };
            return Some(Record {
                event,
                clipped: self.clipped,
            });
        }
        None
    }
}
