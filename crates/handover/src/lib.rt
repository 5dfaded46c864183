// Demands 2 and 3, of `logger_calls`; and the calls themselves, each with the equation that the claim reads it by.
#![tactic(auto)]

ghost use Rattle.std.specs.Prelude.{◌≡◌};
ghost use Rattle.numbers.specs.Refusals.{number_in};
ghost use Rattle.reading.specs.Told.{told_in};
ghost use Rattle.reading.specs.Readings.{readings_in};
ghost use Rattle.reading.specs.Calls.{trial_to};
ghost use Rattle.image.specs.Image.{restored_to};
ghost use Rattle.logger.specs.Logger.{started_told, fed_to, saved_to};
ghost use Rattle.logger.specs.Calls.{logger_calls};
ghost use Rattle.handover.specs.Claim.{Demand3};
ghost use Rattle.handover.specs.Demand2.{Demand2};

use logger::{Fed, Logger, Resumed};
use numbers::Refusal;
use reading::{Readings, Told};

// What demand 2 says of every logger, also of one whose image no recording gives.
pub fn demand2()
    ensures { Demand2 logger_calls }
{}

// The claim.
pub fn demand3()
    ensures { Demand3 logger_calls }
{}

// The calls that the claim speaks of are those that run: each of the functions below makes one call of `Logger` and promises the equation that the claim reads it
// by. A contract of `Logger` that said less would not pass here.
pub fn start(bytes: &[u8]) -> Result<Logger, Refusal>
    ensures { started_told result ≡ logger_calls.start bytes.now }
{
    Logger::start(bytes)
}

pub fn feed(logger: Logger, block: &[i16], records: &mut [u8]) -> Fed
    ensures { fed_to result.logger.state (told_in result.told) records.new ≡ logger_calls.feed logger.state block.now records.old }
{
    logger.feed(block, records)
}

// Feed of a logger that is lent, as advance and try make it.
pub fn feed_in_place(logger: &mut Logger, block: &[i16], records: &mut [u8]) -> Told
    ensures { fed_to logger.new.state (told_in result) records.new ≡ logger_calls.feed logger.old.state block.now records.old }
{
    logger.feed_in_place(block, records)
}

pub fn trial(logger: Logger, block: &[i16], scratch: &mut [u8]) -> Told
    ensures { trial_to (told_in result) scratch.new ≡ logger_calls.trial logger.state block.now scratch.old }
{
    logger.trial(block, scratch)
}

pub fn look(logger: Logger) -> Readings
    ensures { readings_in result ≡ logger_calls.look logger.state }
{
    logger.look()
}

pub fn save(logger: Logger, image: &mut [u8]) -> Result<(), Refusal>
    ensures { saved_to (number_in result) image.new ≡ logger_calls.save logger.state image.old }
{
    logger.save(image)
}

pub fn restore(logger: Logger, bytes: &[u8]) -> Resumed
    ensures { restored_to result.logger.state result.answer ≡ logger_calls.restore logger.state bytes.now }
{
    logger.restore(bytes)
}
