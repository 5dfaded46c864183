// Makes lists of calls and prints every answer, with each lent buffer as the call leaves it, for a comparison with what 01 says of them.
//
// Standard input holds items, one behind the other, as `call_items` tells.
//
//   kind                  number                       bytes that follow   prints
//   0 start               how many calls the list has  settings            start, or: refused, number
//   1 feed                length of the record buffer  samples             feed, taken, written, why, record buffer
//   2 look                none                         none                look, V, value, sum, phase, dip, swell, interruption
//   3 save                length of the image buffer   none                save, 0 or the refusal's number, image buffer
//   4 restore of a save   which save, from 0           none                restore, 0 or the refusal's number
//   5 restore of bytes    none                         image               restore, 0 or the refusal's number
//   6 gather              samples in a half-cycle      samples             samples, then parts, each with count, sum, last sum, whether there is
//                                                                          one, the marks of the half in progress and the last, halves
//   7 trial               length of the scratch buffer samples             trial, taken, written, why, scratch buffer
//
// Each answer is a line, with a space between words; numbers are in base ten, buffers in base sixteen. Samples are low byte first; a last odd byte is none. The
// first 16 accepted saves of a list are kept, and named by their place among them; the restore of another prints `none`. A gather with a half-cycle of 0 samples
// or of more than 256 is skipped, and so is an item of another kind in a list.
#![tactic(auto)]

ghost use Rattle.std.specs.Prelude.{◌≤◌, ◌<◌};

use bodies::IMAGE_LENGTH;
use call_items::{Item, Kind, List, MOST, MOST_SAMPLES};
use logger::Logger;
use numbers::Refusal;
use rms::Gatherer;
use settings::Settings;

// The saves that are kept of a list, at most.
const PLACES: usize = 16;

type Image = [u8; IMAGE_LENGTH];

// The saves that are kept of a list, in the places from the first on.
#[derive(Clone, Copy)]
struct Saves {
    places: [Option<Image>; PLACES],
}

// A logger, and the saves of its list.
#[derive(Clone, Copy)]
struct Calls {
    logger: Logger,
    saves: Saves,
}

// What samples leave of a fresh gatherer, and how many half-cycles they ended.
#[derive(Clone, Copy)]
struct Counted {
    gatherer: Gatherer,
    halves: usize,
}

impl Saves {
    fn new() -> Saves {
        Saves {
            places: [None; PLACES],
        }
    }

    // Keeps an image in the first place that is free, if there is one.
    fn keep(&mut self, image: &Image) {
        if let Some(free) = self.places.iter().position(|place| place.is_none()) {
            self.places[free] = Some(*image);
        }
    }

    // A save by its place.
    fn get(&self, which: usize) -> Option<&Image> {
        self.places.get(which)?.as_ref()
    }
}

impl List for Calls {
    fn start(settings: &[u8]) -> Result<Calls, Refusal> {
        let logger = Logger::start(settings)?;
        Ok(Calls {
            logger,
            saves: Saves::new(),
        })
    }

    fn call(&mut self, rt: HostRuntime, item: Item, bytes: &[u8; MOST], space: &mut [u8; MOST]) {
        match item.kind {
            Kind::Feed => self.feed(rt, item, bytes, space),
            Kind::Look => self.look(rt),
            Kind::Save => self.save(rt, item.lent(space)),
            Kind::RestoreSave => self.restore_save(rt, usize::from(item.number)),
            Kind::RestoreBytes => restore(rt, &mut self.logger, item.bytes(bytes)),
            Kind::Gather => try_gather(rt, item, bytes),
            Kind::Trial => self.trial(rt, item, bytes, space),
            Kind::Start | Kind::Other(_) => {}
        }
    }
}

impl Calls {
    fn feed(&mut self, rt: HostRuntime, item: Item, bytes: &[u8; MOST], space: &mut [u8; MOST]) {
        let mut places = [0i16; MOST_SAMPLES];
        let block = item.samples(bytes, &mut places);
        let records = item.lent(space);
        let fed = self.logger.feed(block, records);
        self.logger = fed.logger;
        call_items::print_told(rt, b"feed", fed.told);
        call_items::print_bytes(rt, records);
    }

    fn trial(&self, rt: HostRuntime, item: Item, bytes: &[u8; MOST], space: &mut [u8; MOST]) {
        let mut places = [0i16; MOST_SAMPLES];
        let block = item.samples(bytes, &mut places);
        let scratch = item.lent(space);
        let told = self.logger.trial(block, scratch);
        call_items::print_told(rt, b"trial", told);
        call_items::print_bytes(rt, scratch);
    }

    fn look(&self, rt: HostRuntime) {
        let readings = self.logger.look();
        call_items::print(
            rt,
            format_args!(
                "look {} {} {}",
                readings.count, readings.value, readings.sum
            ),
        );
        call_items::print_standing(
            rt,
            readings.phase,
            readings.dip,
            readings.swell,
            readings.interruption,
        );
    }

    // Saves into this buffer, and keeps what was saved.
    fn save(&mut self, rt: HostRuntime, image: &mut [u8]) {
        let answer = self.logger.save(image);
        call_items::print_number(rt, b"save", u64::from(numbers::answer_number(answer)));
        call_items::print_bytes(rt, image);
        if answer.is_ok()
            && let Some(saved) = image.first_chunk()
        {
            self.saves.keep(saved);
        }
    }

    fn restore_save(&mut self, rt: HostRuntime, which: usize) {
        match self.saves.get(which) {
            Some(image) => restore(rt, &mut self.logger, image),
            None => call_items::print(rt, "none\n"),
        }
    }
}

fn restore(rt: HostRuntime, logger: &mut Logger, bytes: &[u8]) {
    let resumed = logger.restore(bytes);
    *logger = resumed.logger;
    let number = numbers::answer_number(resumed.answer);
    call_items::print(rt, format_args!("restore {number}\n"));
}

// A fresh gatherer, lent to each sample.
fn gather_samples(half_length: u32, samples: &[i16]) -> Counted
    requires { (0 < half_length) × (half_length ≤ 256) }
{
    let mut gatherer = Gatherer::new();
    let mut halves = 0;
    for sample in samples {
        halves += usize::from(rms::gather(&mut gatherer, half_length, *sample));
    }
    Counted { gatherer, halves }
}

// A fresh gatherer, with the parts that the cut gives, as feed takes them: the cut tells whether there is one more.
fn gather_parts(half_length: u32, samples: &[i16]) -> Counted
    requires { (0 < half_length) × (half_length ≤ 256) }
{
    let mut gatherer = Gatherer::new();
    let mut halves = 0;
    let mut rest = samples;
    let mut share = gatherer.cut(half_length, rest);
    while share.completes {
        let (half, others) = rest.split_at(share.count);
        gatherer = gatherer.with_half(rms::sum_squares(half));
        halves += 1;
        rest = others;
        share = gatherer.cut(half_length, rest);
    }
    Counted {
        gatherer: gatherer.with_part(rms::sum_squares(rest)),
        halves,
    }
}

fn print_counted(rt: HostRuntime, word: &str, counted: Counted) {
    let Gatherer {
        count,
        sum,
        last,
        whole,
        clipped,
        last_clipped,
    } = counted.gatherer;
    call_items::print(
        rt,
        format_args!(
            "{word} {count} {sum} {last} {} {} {} {}\n",
            u8::from(whole),
            u8::from(clipped),
            u8::from(last_clipped),
            counted.halves,
        ),
    );
}

// Gathers an item's samples both ways, where the half-cycle has a length that the gatherer is made for.
fn try_gather(rt: HostRuntime, item: Item, bytes: &[u8; MOST]) {
    let half_length = u32::from(item.number);
    if half_length == 0 || Settings::SAMPLES_MOST < half_length {
        return;
    }
    let mut places = [0i16; MOST_SAMPLES];
    let block = item.samples(bytes, &mut places);
    print_counted(rt, "samples", gather_samples(half_length, block));
    print_counted(rt, "parts", gather_parts(half_length, block));
}

fn main(rt: HostRuntime) {
    call_items::make_lists::<Calls>(rt);
}
