// What a logger keeps: the settings, the gatherer, what is kept of the values, and the window of the last ones and of their marks. In specs/: what samples do to it.
#![tactic(auto)]

ghost use Rattle.std.specs.Prelude.{◌≡◌, ◌≤◌, length, take, if◌then◌else◌};
ghost use Rattle.numbers.specs.Notation.{◌<ᵇ◌};
ghost use Rattle.settings.specs.Settings.{ValidSettings};
ghost use Rattle.reading.specs.Changes.{sum as sum_of};
ghost use Rattle.reading.specs.Readings.{readings_in};
ghost use Rattle.state.specs.State.{fresh as fresh_of, readings_of, ValidState};

use detection::Detector;
use reading::Readings;
use rms::Gatherer;
use settings::Settings;

// No invariant holds of the type: `image::restore` hands back the old state as it was, whatever it is. The window and its marks are two arrays: each runs in lanes of
// its own, and an image has one behind the other.
#[derive(Clone, Copy)]
pub struct State {
    pub settings: Settings,
    pub gatherer: Gatherer,
    pub detector: Detector,
    pub window: [u32; 120],
    pub marks: [u8; 120],
}

// The sum of a window of `window_length` after `count` values, 0 while it is not full.
pub fn full_sum(window: &[u32], window_length: u64, count: u64) -> u64
    requires { (window_length ≤ length window.now) × (window_length ≤ 120) }
    ensures { result ≡ (if count <ᵇ window_length then 0 else sum_of (take window_length window.now)) }
{
    if count < window_length {
        return 0;
    }
    window::sum_of(&window[..window_length as usize])
}

impl State {
    // Of a logger that has taken no sample.
    pub fn fresh(settings: Settings) -> State
        requires { ValidSettings settings }
        ensures { (result ≡ fresh_of settings) × ValidState result }
    {
        State {
            settings,
            gatherer: Gatherer::new(),
            detector: Detector::new(),
            window: [0; 120],
            marks: [0; 120],
        }
    }

    // What look tells.
    #[tactic(auto, unfolding(crate::specs::State::readings_of))]
    pub fn look(self) -> Readings
        requires { ValidState self }
        ensures { readings_in result ≡ readings_of self }
    {
        let detector = self.detector;
        let window_length = self.settings.window_length();
        let count = detector.count;
        Readings {
            count,
            value: u64::from(window::newest(&self.window, window_length, count)),
            sum: full_sum(&self.window, window_length, count),
            phase: detector.phase.kind(),
            dip: 0 < detector.dip.start,
            swell: 0 < detector.swell.start,
            interruption: 0 < detector.interruption.start,
        }
    }
}
