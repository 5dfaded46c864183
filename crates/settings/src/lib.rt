// The settings: nine 4-byte numbers with the ranges that belong to them, from bytes and into bytes.
#![tactic(auto)]

ghost use Rattle.std.specs.Prelude.{◌≡◌, ◌*◌, ◌≤◌, ◌/◌, length};
ghost use Rattle.numbers.specs.Rules.{passes, Holds};
ghost use Rattle.numbers.specs.Refusals.{number_in, answer_in};
ghost use Rattle.settings.specs.Settings.{window_length_of, settings_length, settings_bytes, settings_of, settings_refusal, settings_read};
ghost use Rattle.settings.specs.Settings.{scaled_of, ValidSettings};
ghost use Rattle.settings.specs.Settings.{samples_rule, frequency_rule, declared_rule, limit_rule, levels_rule, order_rule};

use numbers::Refusal;

// In 01's order: M, F, U, T, H, I, D, W, G. No invariant says that they are in range: `unchecked` makes settings from any bytes, and the state that a restore
// finds may hold any (`image_vectors` gives zeros).
#[derive(Clone, Copy)]
pub struct Settings {
    // Samples in a half-cycle.
    pub samples: u32,
    // The system's frequency in hertz.
    pub frequency: u32,
    // The declared voltage in sixteenths of a count.
    pub declared: u32,
    // The limit of a rapid voltage change, and its reduction while one runs, in hundredths of a percent of the declared voltage.
    pub limit: u32,
    pub reduction: u32,
    // The levels of interruptions, dips and swells, and their hysteresis, in the same hundredths.
    pub interruption: u32,
    pub dip: u32,
    pub swell: u32,
    pub hysteresis: u32,
}

// Where an event begins and where it ends.
#[derive(Clone, Copy)]
pub struct Threshold {
    pub begins: u64,
    pub ends: u64,
}

// The levels, times the declared voltage: 10,000 times a value is compared with them. The limit of a rapid voltage change: the greatest difference of a value
// times the window length from the window's sum that is still calm; and what is taken off it in a change. As a difference, since the compiler would else work
// the limit in force out again at every value.
#[derive(Clone, Copy)]
pub struct Scaled {
    pub dip: Threshold,
    pub swell: Threshold,
    pub interruption: Threshold,
    pub limit: u64,
    pub reduction: u64,
}

impl Settings {
    pub const LENGTH: usize = 36;

    pub const SAMPLES_LEAST: u32 = 8;

    pub const SAMPLES_MOST: u32 = 256;

    pub const FREQUENCY_50: u32 = 50;

    pub const FREQUENCY_60: u32 = 60;

    pub const DECLARED_LEAST: u32 = 16;

    pub const DECLARED_MOST: u32 = 524_288;

    pub const LIMIT_LEAST: u32 = 50;

    pub const LIMIT_MOST: u32 = 600;

    pub const INTERRUPTION_LEAST: u32 = 1;

    pub const LEVEL_MOST: u32 = 20_000;

    pub const WINDOW_50: u64 = 100;

    pub const WINDOW_60: u64 = 120;

    // The settings that bytes are, or why they are refused.
    #[tactic(auto, unfolding(crate::specs::Settings::settings_read, crate::specs::Settings::start_refusal))]
    pub fn from_bytes(bytes: &[u8]) -> Result<Settings, Refusal>
        ensures { answer_in result ≡ settings_read bytes.now }
    {
        if bytes.len() != Settings::LENGTH {
            return Err(Refusal::SettingsLength);
        }
        let settings = Settings::unchecked(bytes);
        settings.in_range()?;
        Ok(settings)
    }

    // Writes the settings into their part of an image.
    pub fn write(self, part: &mut [u8])
        requires { length part.old ≡ settings_length }
        ensures { part.new ≡ settings_bytes self }
    {
        let numbers = [
            self.samples,
            self.frequency,
            self.declared,
            self.limit,
            self.reduction,
            self.interruption,
            self.dip,
            self.swell,
            self.hysteresis,
        ];
        octets::put_words(part, &numbers);
    }

    // The number of values in the window.
    pub fn window_length(self) -> u64
        ensures { (result ≡ window_length_of self) × (100 ≤ result) × (result ≤ 120) }
    {
        if self.frequency == Settings::FREQUENCY_50 {
            Settings::WINDOW_50
        } else {
            Settings::WINDOW_60
        }
    }

    pub fn scaled(self) -> Scaled
        requires { ValidSettings self }
        ensures { result ≡ scaled_of self }
    {
        let limit = self.scaled_limit(self.limit);
        Scaled {
            dip: self.threshold(self.dip, self.dip + self.hysteresis),
            swell: self.threshold(self.swell, self.swell - self.hysteresis),
            interruption: self.threshold(self.interruption, self.interruption + self.hysteresis),
            limit,
            reduction: limit.saturating_sub(self.scaled_limit(self.limit - self.reduction)),
        }
    }

    // Two levels, scaled: 8 bytes hold the product of two numbers of 4.
    fn threshold(self, begins: u32, ends: u32) -> Threshold
        ensures { (result.begins ≡ begins * self.declared) × (result.ends ≡ ends * self.declared) }
    {
        let declared = u64::from(self.declared);
        Threshold {
            begins: u64::from(begins) * declared,
            ends: u64::from(ends) * declared,
        }
    }

    // A limit of a rapid voltage change, scaled.
    fn scaled_limit(self, limit: u32) -> u64
        requires { Holds (declared_rule self) }
        ensures { result ≡ limit * window_length_of self * self.declared / 10000 }
    {
        u64::from(limit) * self.window_length() * u64::from(self.declared) / 10_000
    }

    // The settings that bytes are, in range or not.
    fn unchecked(bytes: &[u8]) -> Settings
        requires { length bytes.now ≡ settings_length }
        ensures { result ≡ settings_of bytes.now }
    {
        let mut numbers = [0u32; 9];
        octets::get_words(bytes, &mut numbers);
        let [
            samples,
            frequency,
            declared,
            limit,
            reduction,
            interruption,
            dip,
            swell,
            hysteresis,
        ] = numbers;
        Settings {
            samples,
            frequency,
            declared,
            limit,
            reduction,
            interruption,
            dip,
            swell,
            hysteresis,
        }
    }

    // The lowest refusal that applies, if one does.
    #[tactic(auto, unfolding(crate::specs::Settings::settings_refusal))]
    fn in_range(self) -> Result<(), Refusal>
        ensures { number_in result ≡ settings_refusal self }
    {
        if !self.samples_good() {
            return Err(Refusal::Samples);
        }
        if !self.frequency_good() {
            return Err(Refusal::Frequency);
        }
        if !self.declared_good() {
            return Err(Refusal::Declared);
        }
        if !self.limit_good() {
            return Err(Refusal::Limit);
        }
        if !(self.levels_good() && self.order_good()) {
            return Err(Refusal::Levels);
        }
        Ok(())
    }

    fn samples_good(self) -> bool
        ensures { result ≡ passes (samples_rule self) }
    {
        Settings::SAMPLES_LEAST <= self.samples && self.samples <= Settings::SAMPLES_MOST
    }

    fn frequency_good(self) -> bool
        ensures { result ≡ passes (frequency_rule self) }
    {
        self.frequency == Settings::FREQUENCY_50 || self.frequency == Settings::FREQUENCY_60
    }

    fn declared_good(self) -> bool
        ensures { result ≡ passes (declared_rule self) }
    {
        Settings::DECLARED_LEAST <= self.declared && self.declared <= Settings::DECLARED_MOST
    }

    fn limit_good(self) -> bool
        ensures { result ≡ passes (limit_rule self) }
    {
        Settings::LIMIT_LEAST <= self.limit
            && self.limit <= Settings::LIMIT_MOST
            && self.reduction < self.limit
    }

    fn levels_good(self) -> bool
        ensures { result ≡ passes (levels_rule self) }
    {
        Settings::INTERRUPTION_LEAST <= self.interruption
            && self.interruption <= Settings::LEVEL_MOST
            && self.dip <= Settings::LEVEL_MOST
            && self.swell <= Settings::LEVEL_MOST
            && self.hysteresis <= Settings::LEVEL_MOST
    }

    // The sums are taken in 8 bytes, so that none wraps.
    fn order_good(self) -> bool
        ensures { result ≡ passes (order_rule self) }
    {
        let hysteresis = u64::from(self.hysteresis);
        let dip = u64::from(self.dip);
        u64::from(self.interruption) + hysteresis <= dip
            && dip + 2 * hysteresis < u64::from(self.swell)
    }
}
