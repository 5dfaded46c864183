// The plain data that the readings of three channels in specs/ speak of, and the promise of their bench readings.
#![tactic(auto)]

ghost use Rattle.std.specs.Prelude.{◌≡◌};
ghost use Rattle.three_reading.specs.Three.{any_of, all_of};
ghost use Rattle.three_reading.specs.ThreeBench.{ThreeBenchReadings};

use reading::PhaseKind;

// One of each channel.
#[derive(Clone, Copy)]
pub struct Three<T> {
    pub a: T,
    pub b: T,
    pub c: T,
}

impl<T> Three<T> {
    // What `f` makes of each.
    pub fn map<U, F: Fn(T) -> U>(self, f: F) -> Three<U>
        requires { F.pre f self.a × F.pre f self.b × F.pre f self.c }
        ensures { F.post f self.a result.a × F.post f self.b result.b × F.post f self.c result.c }
    {
        Three {
            a: f(self.a),
            b: f(self.b),
            c: f(self.c),
        }
    }
}

impl Three<bool> {
    // No test is left out: each is at hand already, and a branch would cost more.
    pub fn any(self) -> bool
        ensures { result ≡ any_of self }
    {
        self.a | (self.b | self.c)
    }

    pub fn all(self) -> bool
        ensures { result ≡ all_of self }
    {
        self.a & (self.b & self.c)
    }
}

// What look tells of one channel: the count of values, the newest one and the sum of the window, 0 where there is none.
#[derive(Clone, Copy)]
pub struct ChannelReadings {
    pub count: u64,
    pub value: u64,
    pub sum: u64,
}

// What look tells: each channel's, the joint phase, and the joint events that stand.
#[derive(Clone, Copy)]
pub struct ThreeReadings {
    pub channels: Three<ChannelReadings>,
    pub phase: PhaseKind,
    pub dip: bool,
    pub swell: bool,
    pub interruption: bool,
}

// 02's rules for three phases, worked out on whole recordings: answers, records and readings.
pub fn bench_readings()
    ensures { ThreeBenchReadings }
{}
