// The calls for a host program in C, on byte slices: begin and advance of 01, 02's trial, count per day and converter. Each returns 0 or the number of the
// refusal.
#![tactic(auto)]

ghost use Rattle.std.specs.Prelude.{◌≡◌, not, ◌≤◌, ◌<◌, ◌*◌, ◌^◌, length, replicate};
ghost use Rattle.octets.specs.Bytes.{row};
ghost use Rattle.numbers.specs.Answers.{answered};
ghost use Rattle.numbers.specs.Refusals.{number_in};
ghost use Rattle.reading.specs.Told.{told_in};
ghost use Rattle.image.specs.Image.{state_at};
ghost use Rattle.numbers.specs.Notation.{◌≡ᵇ◌};
ghost use Rattle.samples.specs.Samples.{samples_of};
ghost use Rattle.logger.specs.Logger.{started_told, fed_to};
ghost use Rattle.logger.specs.Calls.{logger_calls};
ghost use Rattle.reading.specs.Engineer.{over};
ghost use Rattle.reading.specs.Layout.{count_width, earlier_width, reply_length, day_reply_length};
ghost use Rattle.conversion.specs.Conversion.{converted_to, records_converted, image_converted};
ghost use Rattle.host.specs.Host.{block_refusal, begun_to, begun, replied, advanced_to, advanced, block_tried_to, block_tried, day_replied, counted_to, counted};

use day_count::DayCount;
use logger::Logger;
use numbers::Refusal;
use reading::Told;
use records::RECORD_LENGTH;

// A reply: taken, written, why, in 8 bytes each.
const REPLY_LENGTH: usize = 24;

// A day's reply: both counts, then whether each is over, in 8 bytes each.
const DAY_REPLY_LENGTH: usize = 32;

// How many samples are decoded at a time.
const CHUNK: usize = 768;

// Feeds the samples that bytes are, chunk by chunk, each decoded on the stack, until one is not taken whole. Where the records of a chunk begin, and how many samples
// were taken, only the answer of the feed before tells: so the places go on with it, and no iterator's do.
fn feed_chunks(logger: &mut Logger, bytes: &[u8], records: &mut [u8]) -> Told
    ensures { fed_to logger.new.state (told_in result) records.new ≡ logger_calls.feed logger.old.state (samples_of bytes.now) records.old }
{
    let count = bytes.len() / 2;
    let mut samples = [0i16; CHUNK];
    let mut at: usize = 0;
    let mut written: usize = 0;
    while at < count {
        let size = CHUNK.min(count - at);
        let start = 2 * at;
        let end = start + 2 * size;
        let behind = RECORD_LENGTH * written;
        samples::decode(&bytes[start..end], &mut samples[..size]);
        let told = logger.feed_in_place(&samples[..size], &mut records[behind..]);
        written += told.written;
        if told.why.is_some() {
            return Told {
                taken: at + told.taken,
                written,
                why: told.why,
            };
        }
        at += size;
    }
    Told {
        taken: at,
        written,
        why: None,
    }
}

// A row of numbers, 8 bytes each, into the first bytes of a reply.
fn put_front<const N: usize>(reply: &mut [u8], numbers: &[u64; N])
    requires { (8 * N ≤ length reply.old) × (8 * N < 2 ^ 64) }
    ensures { reply.new ≡ over (row (replicate N 8) numbers.now) reply.old }
{
    octets::put_row(&mut reply[..8 * N], &[8; N], numbers);
}

// Taken, written and why.
fn put_reply(reply: &mut [u8], told: Told)
    requires { reply_length ≤ length reply.old }
    ensures { reply.new ≡ replied (told_in told) reply.old }
{
    let why = told.why_number();
    put_front(
        reply,
        &[told.taken as u64, told.written as u64, u64::from(why)],
    );
}

// A day's two counts, and whether each is over.
fn put_day(reply: &mut [u8], day: DayCount)
    requires { day_reply_length ≤ length reply.old }
    ensures { reply.new ≡ day_replied day reply.old }
{
    put_front(
        reply,
        &[
            day.second.count,
            day.first.count,
            u64::from(day.second.over),
            u64::from(day.first.over),
        ],
    );
}

// The calls, each with its answer as a `Result`; the exports below tell it as a number.
fn begin(settings: &[u8], image: &mut [u8]) -> Result<(), Refusal>
    ensures { begun_to (number_in result) image.new ≡ begun settings.now image.old }
{
    let logger = Logger::start(settings)?;
    logger.save(image)
}

// The tests of the samples and of the reply stand here and in `try_block`: a function of them all would hand the logger on, a copy more on the stack.
fn advance(
    image: &[u8],
    samples: &[u8],
    next: &mut [u8],
    records: &mut [u8],
    reply: &mut [u8],
) -> Result<(), Refusal>
    ensures { advanced_to (number_in result) next.new records.new reply.new
        ≡ advanced image.now samples.now next.old records.old reply.old }
{
    let mut logger = Logger::from_image(image)?;
    if samples.len() % 2 != 0 {
        return Err(Refusal::OddSamples);
    }
    if next.len() < bodies::IMAGE_LENGTH {
        return Err(Refusal::Room);
    }
    if reply.len() < REPLY_LENGTH {
        return Err(Refusal::ReplyRoom);
    }
    let told = feed_chunks(&mut logger, samples, records);
    put_reply(reply, told);
    logger.save(next)
}

fn try_block(
    image: &[u8],
    samples: &[u8],
    scratch: &mut [u8],
    reply: &mut [u8],
) -> Result<(), Refusal>
    ensures { block_tried_to (number_in result) scratch.new reply.new
        ≡ block_tried image.now samples.now scratch.old reply.old }
{
    let mut logger = Logger::from_image(image)?;
    if samples.len() % 2 != 0 {
        return Err(Refusal::OddSamples);
    }
    if reply.len() < REPLY_LENGTH {
        return Err(Refusal::ReplyRoom);
    }
    let told = feed_chunks(&mut logger, samples, scratch);
    put_reply(reply, told);
    Ok(())
}

fn count_day(
    settings: &[u8],
    records: &[u8],
    z: u64,
    above: bool,
    day: u64,
    reply: &mut [u8],
) -> Result<(), Refusal>
    ensures { counted_to (number_in result) reply.new ≡ counted settings.now records.now z above day reply.old }
{
    let count = day_count::count_day(settings, records, z, above, day)?;
    if reply.len() < DAY_REPLY_LENGTH {
        return Err(Refusal::ReplyRoom);
    }
    put_day(reply, count);
    Ok(())
}

// Writes the image of a fresh logger.
#[unsafe(no_mangle)]
pub extern "C" fn pq_begin(settings: &[u8], image: &mut [u8]) -> u32
    ensures { begun_to result image.new ≡ begun settings.now image.old }
{
    numbers::answer_number(begin(settings, image))
}

// Restores the logger of an image, feeds it and saves it into the next image; the reply tells what feed tells.
#[unsafe(no_mangle)]
pub extern "C" fn pq_advance(
    image: &[u8],
    samples: &[u8],
    next: &mut [u8],
    records: &mut [u8],
    reply: &mut [u8],
) -> u32
    ensures { advanced_to result next.new records.new reply.new
        ≡ advanced image.now samples.now next.old records.old reply.old }
{
    numbers::answer_number(advance(image, samples, next, records, reply))
}

// What advance with these samples and as much record space would reply and write: the logger of the image is fed and dropped. There is no next image.
#[unsafe(no_mangle)]
pub extern "C" fn pq_try(image: &[u8], samples: &[u8], scratch: &mut [u8], reply: &mut [u8]) -> u32
    ensures { block_tried_to result scratch.new reply.new
        ≡ block_tried image.now samples.now scratch.old reply.old }
{
    numbers::answer_number(try_block(image, samples, scratch, reply))
}

// Counts the rapid voltage changes of a day in a list of records; `above` is 0 up to 35 kV, and any other number above. The reply tells both counts, and
// whether each is over its cap.
#[unsafe(no_mangle)]
pub extern "C" fn pq_count_day(
    settings: &[u8],
    records: &[u8],
    z: u64,
    above: u32,
    day: u64,
    reply: &mut [u8],
) -> u32
    ensures { counted_to result reply.new
        ≡ counted settings.now records.now z (not (above ≡ᵇ 0)) day reply.old }
{
    numbers::answer_number(count_day(settings, records, z, above != 0, day, reply))
}

// Records of the earlier edition as records of this one.
#[unsafe(no_mangle)]
pub extern "C" fn pq_convert_records(earlier: &[u8], records: &mut [u8]) -> u32
    ensures { converted_to result records.new ≡ records_converted earlier_width count_width earlier.now records.old }
{
    numbers::answer_number(conversion::convert_records(earlier, records))
}

// And back.
#[unsafe(no_mangle)]
pub extern "C" fn pq_convert_records_back(records: &[u8], earlier: &mut [u8]) -> u32
    ensures { converted_to result earlier.new ≡ records_converted count_width earlier_width records.now earlier.old }
{
    numbers::answer_number(conversion::convert_records_back(records, earlier))
}

// An image of the earlier edition as an image of this one.
#[unsafe(no_mangle)]
pub extern "C" fn pq_convert_image(earlier: &[u8], image: &mut [u8]) -> u32
    ensures { converted_to result image.new ≡ image_converted earlier_width count_width earlier.now image.old }
{
    numbers::answer_number(conversion::convert_image(earlier, image))
}

// And back.
#[unsafe(no_mangle)]
pub extern "C" fn pq_convert_image_back(image: &[u8], earlier: &mut [u8]) -> u32
    ensures { converted_to result earlier.new ≡ image_converted count_width earlier_width image.now earlier.old }
{
    numbers::answer_number(conversion::convert_image_back(image, earlier))
}
