// The logger: a block of samples in, records out; a block tried; its readings; its image saved and restored.
#![tactic(auto)]

ghost use Rattle.state.specs.State.{ValidState};

use numbers::Refusal;
use reading::{Readings, Told};
use settings::Settings;
use state::State;

// A logger, valid from its start on.
#[derive(Clone, Copy)]
pub struct Logger {
    state: State,
    ghost valid: { ∥ ValidState state ∥₁ },
}

// What feed leaves and tells.
#[derive(Clone, Copy)]
pub struct Fed {
    pub logger: Logger,
    pub told: Told,
}

// What restore leaves and tells.
#[derive(Clone, Copy)]
pub struct Resumed {
    pub logger: Logger,
    pub answer: Result<(), Refusal>,
}

impl Logger {
    ghost use Rattle.std.specs.Prelude.{◌≡◌};
    ghost use Rattle.settings.specs.Settings.{ValidSettings};
    ghost use Rattle.reading.specs.Told.{told_in};
    ghost use Rattle.reading.specs.Readings.{readings_in};
    ghost use Rattle.reading.specs.Calls.{trial_to};
    ghost use Rattle.numbers.specs.Refusals.{number_in};
    ghost use Rattle.state.specs.State.{fresh as fresh_of};
    ghost use Rattle.image.specs.Image.{restored_to};
    ghost use Rattle.logger.specs.Logger.{started_told, fed_to, saved_to};
    ghost use Rattle.logger.specs.Calls.{logger_calls, spare_settings, resumed_to};

    // A fresh logger from settings bytes; or the refusal, and no logger.
    pub fn start(bytes: &[u8]) -> Result<Logger, Refusal>
        ensures { started_told result ≡ logger_calls.start bytes.now }
    {
        let settings = Settings::from_bytes(bytes)?;
        Ok(Logger::fresh(settings))
    }

    // A logger that has taken no sample, of settings that start accepts.
    pub fn fresh(settings: Settings) -> Logger
        requires { ValidSettings settings }
        ensures { result.state ≡ fresh_of settings }
    {
        let state = State::fresh(settings);
        Logger { state }
    }

    // The greatest number of the block's samples that 01 allows, and their records.
    pub fn feed(self, block: &[i16], records: &mut [u8]) -> Fed
        ensures { fed_to result.logger.state (told_in result.told) records.new ≡ logger_calls.feed self.state block.now records.old }
    {
        let mut logger = self;
        let told = logger.feed_in_place(block, records);
        Fed { logger, told }
    }

    // Feed of a logger that stays where it stands, so that a caller with little stack keeps no copy of it.
    pub fn feed_in_place(&mut self, block: &[i16], records: &mut [u8]) -> Told
        ensures { fed_to self.new.state (told_in result) records.new ≡ logger_calls.feed self.old.state block.now records.old }
    {
        feed::walk(&mut self.state, block, records)
    }

    // What feed would tell of a block, and its records into a scratch buffer: a copy is fed, and dropped.
    pub fn trial(self, block: &[i16], scratch: &mut [u8]) -> Told
        ensures { trial_to (told_in result) scratch.new ≡ logger_calls.trial self.state block.now scratch.old }
    {
        let fed = self.feed(block, scratch);
        fed.told
    }

    // What look tells.
    pub fn look(self) -> Readings
        ensures { readings_in result ≡ logger_calls.look self.state }
    {
        self.state.look()
    }

    // Writes the logger's image into the first bytes of a buffer; one that is shorter stays as it was.
    pub fn save(self, image: &mut [u8]) -> Result<(), Refusal>
        ensures { saved_to (number_in result) image.new ≡ logger_calls.save self.state image.old }
    {
        image::save(self.state, image)
    }

    // The logger of an image; on refusal the old one remains.
    pub fn restore(self, bytes: &[u8]) -> Resumed
        ensures { restored_to result.logger.state result.answer ≡ logger_calls.restore self.state bytes.now }
    {
        let restored = image::restore(self.state, bytes);
        Resumed {
            logger: Logger {
                state: restored.state,
            },
            answer: restored.answer,
        }
    }

    // The logger of an image; or the refusal, and the spare logger that the image was to be restored into.
    pub fn resume(image: &[u8]) -> Resumed
        ensures { restored_to result.logger.state result.answer ≡ logger_calls.restore (fresh_of spare_settings) image.now }
    {
        let spare = Logger::fresh(Logger::spare_settings());
        spare.restore(image)
    }

    // The logger of an image; or the refusal, and no logger: a caller that goes on from none needs no spare one, nor room for it. The clause tells it as `resume`.
    pub fn from_image(image: &[u8]) -> Result<Logger, Refusal>
        ensures { resumed_to result ≡ logger_calls.restore (fresh_of spare_settings) image.now }
    {
        let state = image::read(image)?;
        Ok(Logger { state })
    }

    // The least settings that start accepts.
    fn spare_settings() -> Settings
        ensures { (result ≡ spare_settings) × ValidSettings result }
    {
        Settings {
            samples: Settings::SAMPLES_LEAST,
            frequency: Settings::FREQUENCY_50,
            declared: Settings::DECLARED_LEAST,
            limit: Settings::LIMIT_LEAST,
            reduction: 0,
            interruption: Settings::INTERRUPTION_LEAST,
            dip: 1,
            swell: 2,
            hysteresis: 0,
        }
    }
}
