// The event program of one channel: settings, then samples, from standard input; a line for each record, and the number of values, to standard output. What fails,
// and what has not ended, goes to standard error.
#![tactic(auto)]

ghost use Rattle.std.specs.Prelude.{◌≡◌, refl};
ghost use Rattle.event_log.specs.FedAll.{FedAll};
ghost use Rattle.event_log.specs.FedAllLaws.{left, part-leaves, falls};

use event_lines::{Console, Ending};
use event_program::{EventLogger, Fed};
use logger::Logger;
use reading::Stop;
use settings::Settings;

// The samples that are read at a time.
const CHUNK: usize = 4096;

// The logger of one channel, as the event program feeds it.
#[derive(Clone, Copy)]
struct Channel {
    logger: Logger,
}

impl EventLogger for Channel {
    ghost Leaves = { λ l xs after why. FedAll l.logger xs after.logger why };

    ghost whole_of = { λ n. n };

    ghost left = { λ l. left l.logger.state };

    fn fresh(settings: Settings) -> Channel {
        Channel {
            logger: Logger::fresh(settings),
        }
    }

    fn whole(count: usize) -> usize {
        count
    }

    fn feed(self, samples: &[i16], records: &mut [u8]) -> Fed<Channel> {
        let fed = self.logger.feed(samples, records);
        Fed {
            logger: Channel { logger: fed.logger },
            told: fed.told,
        }
    }

    fn ending(self, why: Option<Stop>) -> Ending {
        let readings = self.logger.look();
        Ending {
            count: readings.count,
            dip: readings.dip,
            swell: readings.swell,
            interruption: readings.interruption,
            phase: readings.phase,
            why,
        }
    }

    ghost part_leaves = { λ l m. part-leaves l.logger m.logger };

    ghost whole_again = { λ n. refl };

    ghost falls = { λ l m. falls l.logger m.logger };
}

fn main(rt: HostRuntime) {
    let console = Console::new(rt, b"event_log: ");
    event_program::run::<Channel>(console, &mut [0u8; 2 * CHUNK], &mut [0i16; CHUNK]);
}
