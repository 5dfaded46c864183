// The claim of three phases, of `three_calls`; and the calls themselves, each with the equation that the claim reads it by.
#![tactic(auto)]

ghost use Rattle.std.specs.Prelude.{◌≡◌};
ghost use Rattle.numbers.specs.Refusals.{answer_with};
ghost use Rattle.reading.specs.Told.{told_in};
ghost use Rattle.three_reading.specs.ThreeReadings.{three_readings_in};
ghost use Rattle.three_logger.specs.Logger.{three_started_told, three_fed_to};
ghost use Rattle.three_logger.specs.Calls.{three_calls};
ghost use Rattle.three_claim.specs.ThreeClaim.{ThreePhases};

use numbers::Refusal;
use three_logger::{ThreeFed, ThreeLogger};
use three_reading::ThreeReadings;

// The claim.
pub fn three_phases()
    ensures { ThreePhases three_calls }
{}

// The calls that the claim speaks of are those that run: each of the functions below makes one call of `ThreeLogger` and promises the equation that the claim
// reads it by. A contract of `ThreeLogger` that said less would not pass here.
pub fn start(bytes: &[u8]) -> Result<ThreeLogger, Refusal>
    ensures { three_started_told result ≡ three_calls.start bytes.now }
{
    ThreeLogger::start(bytes)
}

pub fn feed(logger: ThreeLogger, block: &[i16], records: &mut [u8]) -> ThreeFed
    ensures { three_fed_to result.logger.state (answer_with told_in result.answer) records.new ≡ three_calls.feed logger.state block.now records.old }
{
    logger.feed(block, records)
}

pub fn look(logger: ThreeLogger) -> ThreeReadings
    ensures { three_readings_in result ≡ three_calls.look logger.state }
{
    logger.look()
}
