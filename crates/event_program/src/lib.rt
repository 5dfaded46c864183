// The event program over a logger of any number of channels: settings, then samples, from standard input; a line for each record, and the number of values, to
// standard output. What fails, and what has not ended, goes to standard error.
#![tactic(auto)]

ghost use Rattle.std.specs.Prelude.{◌≡◌, ℕ, ℤ, List, ◌*◌, ◌≤◌, ◌<◌, length, take};
ghost use Rattle.numbers.specs.Notation.{◌≡ᵇ◌};
ghost use Rattle.settings.specs.Settings.{ValidSettings};
ghost use Rattle.samples.specs.Samples.{samples_of};
ghost use Rattle.reading.specs.Told.{told_in, why_number};
ghost use Rattle.event_program.specs.Turns.{FedTurn};

use arrayvec::ArrayString;
use event_lines::{Console, Ending, LINE};
use reading::{Stop, Told};
use records::RECORD_LENGTH;
use settings::Settings;

// The records that a feed has room for. Four are enough: one sample never has more due.
const RECORDS: usize = 64;

// Room for the lines of as many records.
const TEXT: usize = LINE * RECORDS;

// A logger after a feed, and what the feed tells.
#[derive(Clone, Copy)]
pub struct Fed<L> {
    pub logger: L,
    pub told: Told,
}

// A logger that the event program feeds.
pub trait EventLogger: Copy {
    // A logger, samples, and what they leave once they are fed with room for all their records: the logger, and why it took no more: 0 all taken, 2 V is at its
    // end.
    ghost Leaves: { Self → List ℤ → Self → ℕ → Type 0 };

    // The samples that can be fed, of so many: those that come one of each channel.
    ghost whole_of: { ℕ → ℕ };

    // What V's end leaves to feed.
    ghost left: { Self → ℕ };

    fn fresh(settings: Settings) -> Self
        requires { ValidSettings settings };

    fn whole(count: usize) -> usize
        ensures value { result ≡ whole_of count }
        ensures bound { result ≤ count };

    // The greatest number of the samples that the rules allow, and their records.
    fn feed(self, samples: &[i16], records: &mut [u8]) -> Fed<Self>
        requires { whole_of (length samples.now) ≡ length samples.now }
        ensures { FedTurn Leaves whole_of self samples.now (length records.new) result.logger (told_in result.told) };

    fn ending(self, why: Option<Stop>) -> Ending;

    // Samples leave what those of them that can be fed leave.
    ghost part_leaves: { (l m : Self) (xs : List ℤ) (why : ℕ) → Leaves l (take (whole_of (length xs)) xs) m why → Leaves l xs m why };

    ghost whole_again: { (n : ℕ) → whole_of (whole_of n) ≡ whole_of n };

    // Samples that are all taken lower what is left.
    ghost falls: { (l m : Self) (xs : List ℤ) → 0 < whole_of (length xs) → Leaves l xs m 0 → left m < left l };
}

// A logger after samples, why it took no more, and whether all their lines were printed.
#[derive(Clone, Copy)]
struct Turn<L> {
    logger: L,
    why: Option<Stop>,
    printed: bool,
}

// Whether a feed has stopped for want of room, so that there is one to come.
fn wants_room(why: Option<Stop>) -> bool
    ensures { result ≡ (why_number why ≡ᵇ 1) }
{
    why == Some(Stop::Room)
}

// Feeds samples until all are taken or V is at its end, and prints the lines of their records while none was lost.
fn feed_all<L: EventLogger>(console: Console, logger: L, samples: &[i16]) -> Turn<L>
    requires { L.whole_of (length samples.now) ≡ length samples.now }
    ensures { L.Leaves logger samples.now result.logger (why_number result.why) }
{
    let mut records = [0u8; RECORD_LENGTH * RECORDS];
    let mut text = ArrayString::<TEXT>::new();
    let mut held = logger;
    let mut rest = samples;
    let mut printed = true;
    loop {
        let fed = held.feed(rest, &mut records);
        let told = fed.told;
        text.clear();
        event_lines::put_lines(&mut text, &records, told.written);
        printed = console.print(printed, text.as_str().as_bytes());
        held = fed.logger;
        if !wants_room(told.why) {
            return Turn {
                logger: held,
                why: told.why,
                printed,
            };
        }
        rest = &rest[told.taken..];
    }
}

// Feeds the samples of a chunk, which are put into their places.
fn feed_chunk<L: EventLogger>(
    console: Console,
    logger: L,
    bytes: &[u8],
    places: &mut [i16],
) -> Turn<L>
    requires { length bytes.now ≤ 2 * length places.old }
    ensures { L.Leaves logger (samples_of bytes.now) result.logger (why_number result.why) }
{
    let count = L::whole(bytes.len() / 2);
    let samples = &mut places[..count];
    samples::decode(&bytes[..2 * count], samples);
    feed_all(console, logger, samples)
}

// Feeds a fresh logger to the end of the input or of V, and prints. Where something fails it prints no more: a text without its last line is not whole.
fn log<L: EventLogger>(console: Console, settings: Settings, bytes: &mut [u8], places: &mut [i16])
    requires settings { ValidSettings settings }
    requires chunk { (length bytes.old ≡ 2 * length places.old) × (0 < L.whole_of (length places.old)) }
    requires parting { L.whole_of (length places.old) ≡ length places.old }
{
    if !console.print_heading() {
        return;
    }
    let mut logger = L::fresh(settings);
    loop {
        let got = console.read(bytes);
        let turn = feed_chunk(console, logger, &bytes[..got.count], places);
        logger = turn.logger;
        let good = turn.printed && got.failed.is_none();
        if !event_lines::goes_on(good, got.count, bytes.len(), turn.why) {
            if good {
                console.finish(logger.ending(turn.why));
            }
            return;
        }
    }
}

// The program: so many bytes are read at a time, and their samples put into the places. A chunk can be fed whole: no sample is left over between two chunks.
pub fn run<L: EventLogger>(console: Console, bytes: &mut [u8], places: &mut [i16])
    requires chunk { (length bytes.old ≡ 2 * length places.old) × (0 < L.whole_of (length places.old)) }
    requires parting { L.whole_of (length places.old) ≡ length places.old }
{
    if let Some(settings) = console.begin() {
        log::<L>(console, settings, bytes, places);
    }
}
