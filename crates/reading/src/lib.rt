// The plain data that the readings in specs/ speak of, and the promise of 01's bench readings.
#![tactic(auto)]

ghost use Rattle.std.specs.Prelude.{◌≡◌};
ghost use Rattle.reading.specs.Thresholds.{kind_number};
ghost use Rattle.reading.specs.Told.{stop_number, why_number as why_number_of};
ghost use Rattle.reading.specs.Readings.{phase_kind_number};
ghost use Rattle.reading.specs.Bench.{BenchReadings};

// V's end, 2^63 − 1.
pub const LAST_VALUE: u64 = 9_223_372_036_854_775_807;

// The events that are told by a threshold.
#[derive(Clone, Copy, Debug, PartialEq, Eq)]
pub enum Kind {
    Dip,
    Swell,
    Interruption,
}

impl Kind {
    // Its number in a record.
    pub fn number(self) -> u8
        ensures { result ≡ kind_number self }
    {
        match self {
            Kind::Dip => Event::DIP,
            Kind::Swell => Event::SWELL,
            Kind::Interruption => Event::INTERRUPTION,
        }
    }
}

// An event that is over, as its record tells it. The kind is the record's number for it: `records::get_record` reads any byte as one, and the count per day refuses
// a list with another than the four.
#[derive(Clone, Copy)]
pub struct Event {
    pub kind: u8,
    pub start: u64,
    pub duration: u64,
    pub first: u64,
    pub second: u64,
}

impl Event {
    // The kinds' numbers in a record. `Kind` has the first three, of the events that are told by a threshold; the last is a rapid voltage change's.
    pub const DIP: u8 = 1;

    pub const SWELL: u8 = 2;

    pub const INTERRUPTION: u8 = 3;

    pub const CHANGE: u8 = 4;
}

// An event's record: the event, and whether a value from its start to the last one in its first magnitude is clipped.
#[derive(Clone, Copy)]
pub struct Record {
    pub event: Event,
    pub clipped: bool,
}

// Why a feed takes no more samples: the records of the next one would not fit, or it would pass V's end.
#[derive(Clone, Copy, Debug, PartialEq, Eq)]
pub enum Stop {
    Room,
    End,
}

impl Stop {
    pub fn number(self) -> u32
        ensures { result ≡ stop_number self }
    {
        match self {
            Stop::Room => 1,
            Stop::End => 2,
        }
    }
}

// What feed tells: the samples taken, the records written, and why no more, if not all were taken.
#[derive(Clone, Copy)]
pub struct Told {
    pub taken: usize,
    pub written: usize,
    pub why: Option<Stop>,
}

impl Told {
    // 01's number of why: 0 where all were taken.
    pub fn why_number(self) -> u32
        ensures { result ≡ why_number_of self.why }
    {
        match self.why {
            None => 0,
            Some(stop) => stop.number(),
        }
    }
}

// A phase without what it carries: fewer than N values; never yet steady; steady; in a rapid voltage change.
#[derive(Clone, Copy, Debug, PartialEq, Eq)]
pub enum PhaseKind {
    Filling,
    Unsettled,
    Steady,
    Changing,
}

impl PhaseKind {
    // 01's number of the phase.
    pub fn number(self) -> u8
        ensures { result ≡ phase_kind_number self }
    {
        match self {
            PhaseKind::Filling => 0,
            PhaseKind::Unsettled => 1,
            PhaseKind::Steady => 2,
            PhaseKind::Changing => 3,
        }
    }
}

// What look tells: the count of values, the newest one and the sum of the window, 0 where there is none; the phase; the events that stand.
#[derive(Clone, Copy)]
pub struct Readings {
    pub count: u64,
    pub value: u64,
    pub sum: u64,
    pub phase: PhaseKind,
    pub dip: bool,
    pub swell: bool,
    pub interruption: bool,
}

// 01's bench readings, marked [t] there, and more of the same kind, as one promise about the readings: whole recordings in, values, records, counts, an image and
// refusals out.
pub fn bench_readings()
    ensures { BenchReadings }
{}
