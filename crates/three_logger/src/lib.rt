// The three-phase logger: a block of samples in turn a, b, c in, records out; its readings.
#![tactic(auto)]

ghost use Rattle.three_state.specs.ThreeState.{ValidThree};

use numbers::Refusal;
use reading::Told;
use settings::Settings;
use three_reading::ThreeReadings;
use three_state::ThreeState;

// A three-phase logger, valid from its start on.
#[derive(Clone, Copy)]
pub struct ThreeLogger {
    state: ThreeState,
    ghost valid: { ∥ ValidThree state ∥₁ },
}

// What feed leaves and answers.
#[derive(Clone, Copy)]
pub struct ThreeFed {
    pub logger: ThreeLogger,
    pub answer: Result<Told, Refusal>,
}

impl ThreeLogger {
    ghost use Rattle.std.specs.Prelude.{◌≡◌};
    ghost use Rattle.settings.specs.Settings.{ValidSettings};
    ghost use Rattle.numbers.specs.Refusals.{answer_with};
    ghost use Rattle.reading.specs.Told.{told_in};
    ghost use Rattle.three_reading.specs.ThreeReadings.{three_readings_in};
    ghost use Rattle.three_state.specs.ThreeState.{three_fresh};
    ghost use Rattle.three_logger.specs.Logger.{three_started_told, three_fed_to};
    ghost use Rattle.three_logger.specs.Calls.{three_calls};

    // A fresh logger from settings bytes; or the refusal, and no logger.
    pub fn start(bytes: &[u8]) -> Result<ThreeLogger, Refusal>
        ensures { three_started_told result ≡ three_calls.start bytes.now }
    {
        let settings = Settings::from_bytes(bytes)?;
        Ok(ThreeLogger::fresh(settings))
    }

    // A logger that has taken no triple, of settings that start accepts.
    pub fn fresh(settings: Settings) -> ThreeLogger
        requires { ValidSettings settings }
        ensures { result.state ≡ three_fresh settings }
    {
        ThreeLogger {
            state: ThreeState::fresh(settings),
        }
    }

    // The greatest number of the block's triples that 02 allows, and their records; a block that is not a multiple of three samples is refused.
    pub fn feed(self, block: &[i16], records: &mut [u8]) -> ThreeFed
        ensures { three_fed_to result.logger.state (answer_with told_in result.answer) records.new ≡ three_calls.feed self.state block.now records.old }
    {
        if block.len() % 3 != 0 {
            return ThreeFed {
                logger: self,
                answer: Err(Refusal::PartTriple),
            };
        }
        let mut logger = self;
        let told = three_feed::walk(&mut logger.state, block, records);
        ThreeFed {
            logger,
            answer: Ok(Told {
                taken: 3 * told.taken,
                ..told
            }),
        }
    }

    // What look tells.
    pub fn look(self) -> ThreeReadings
        ensures { three_readings_in result ≡ three_calls.look self.state }
    {
        self.state.look()
    }
}
