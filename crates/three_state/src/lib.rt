// What a three-phase logger keeps: the settings, a gatherer for each channel, what is kept of the values, a window for each channel, and the marks of the joint
// values. In specs/: what triples do to it.
#![tactic(auto)]

ghost use Rattle.std.specs.Prelude.{◌≡◌};
ghost use Rattle.settings.specs.Settings.{ValidSettings};
ghost use Rattle.three_reading.specs.ThreeReadings.{three_readings_in};
ghost use Rattle.three_state.specs.ThreeState.{three_fresh, channel_readings_of, three_readings_of, ValidThree};

use joint::Joint;
use rms::Gatherer;
use settings::Settings;
use three_reading::{ChannelReadings, Three, ThreeReadings};

// No invariant holds of the type: in specs/ `with_joint` and `with_gatherers` make one of any parts, and `ThreeLogger` keeps what holds of its own.
#[derive(Clone, Copy)]
pub struct ThreeState {
    pub settings: Settings,
    pub gatherers: Three<Gatherer>,
    pub joint: Joint,
    // The channels' windows, and the marks of the joint values in them.
    pub windows: Three<[u32; 120]>,
    pub marks: [u8; 120],
}

// What look tells of one channel.
fn look_at(settings: Settings, window: &[u32; 120], count: u64) -> ChannelReadings
    ensures { result ≡ channel_readings_of settings count window.now }
{
    let window_length = settings.window_length();
    ChannelReadings {
        count,
        value: u64::from(window::newest(window, window_length, count)),
        sum: state::full_sum(window, window_length, count),
    }
}

impl ThreeState {
    // Of a logger that has taken no triple.
    pub fn fresh(settings: Settings) -> ThreeState
        requires { ValidSettings settings }
        ensures { (result ≡ three_fresh settings) × ValidThree result }
    {
        let gatherer = Gatherer::new();
        let window = [0; 120];
        ThreeState {
            settings,
            gatherers: Three {
                a: gatherer,
                b: gatherer,
                c: gatherer,
            },
            joint: Joint::new(),
            windows: Three {
                a: window,
                b: window,
                c: window,
            },
            marks: [0; 120],
        }
    }

    // What look tells.
    #[tactic(auto, unfolding(crate::specs::ThreeState::three_readings_of))]
    pub fn look(self) -> ThreeReadings
        requires { ValidThree self }
        ensures { three_readings_in result ≡ three_readings_of self }
    {
        let count = self.joint.count;
        let standings = self.joint.standings;
        ThreeReadings {
            // One by one, since `map` would copy each window.
            channels: Three {
                a: look_at(self.settings, &self.windows.a, count),
                b: look_at(self.settings, &self.windows.b, count),
                c: look_at(self.settings, &self.windows.c, count),
            },
            phase: self.joint.own.a.phase.kind(),
            dip: 0 < standings.dip.start,
            swell: 0 < standings.swell.start,
            interruption: 0 < standings.interruption.start,
        }
    }
}
