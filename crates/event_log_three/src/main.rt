// The event program of three channels: settings, then samples in turn a, b, c, from standard input; a line for each record, and the number of joint values, to
// standard output. What fails, and what has not ended, goes to standard error.
#![tactic(auto)]

ghost use Rattle.std.specs.Prelude.{◌≡◌, ◌*◌, ◌/◌};
ghost use Rattle.event_log_three.specs.ThreeFedAll.{ThreeFedAll};
ghost use Rattle.event_log_three.specs.ThreeFedAllLaws.{left, part-leaves, whole-again, falls};

use event_lines::{Console, Ending};
use event_program::{EventLogger, Fed};
use reading::{Stop, Told};
use settings::Settings;
use three_logger::ThreeLogger;

// The samples that are read at a time, whole triples.
const CHUNK: usize = 12288;

// What is told of a block that is refused: nothing of it is taken. One of whole triples is not refused.
const REFUSED: Told = Told {
    taken: 0,
    written: 0,
    why: None,
};

// The logger of three channels, as the event program feeds it.
#[derive(Clone, Copy)]
struct Channels {
    logger: ThreeLogger,
}

impl EventLogger for Channels {
    ghost Leaves = { λ l xs after why. ThreeFedAll l.logger xs after.logger why };

    ghost whole_of = { λ n. 3 * (n / 3) };

    ghost left = { λ l. left l.logger.state };

    fn fresh(settings: Settings) -> Channels {
        Channels {
            logger: ThreeLogger::fresh(settings),
        }
    }

    fn whole(count: usize) -> usize {
        3 * (count / 3)
    }

    fn feed(self, samples: &[i16], records: &mut [u8]) -> Fed<Channels> {
        let fed = self.logger.feed(samples, records);
        Fed {
            logger: Channels { logger: fed.logger },
            told: fed.answer.unwrap_or(REFUSED),
        }
    }

    fn ending(self, why: Option<Stop>) -> Ending {
        let readings = self.logger.look();
        Ending {
            count: readings.channels.a.count,
            dip: readings.dip,
            swell: readings.swell,
            interruption: readings.interruption,
            phase: readings.phase,
            why,
        }
    }

    ghost part_leaves = { λ l m. part-leaves l.logger m.logger };

    ghost whole_again = { whole-again };

    ghost falls = { λ l m. falls l.logger m.logger };
}

fn main(rt: HostRuntime) {
    let console = Console::new(rt, b"event_log_three: ");
    event_program::run::<Channels>(console, &mut [0u8; 2 * CHUNK], &mut [0i16; CHUNK]);
}
