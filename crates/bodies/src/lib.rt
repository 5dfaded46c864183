// The sections of an image, each written into its own part of the lent bytes and read from it: the table of contents, and the bodies of the gatherer, the
// window and the detector. (The settings write and read themselves.)
#![tactic(auto)]

ghost use Rattle.std.specs.Prelude.{◌≡◌, ◌∷◌, ◌++◌, ◌+◌, ◌*◌, ◌≤◌, length};
ghost use Rattle.octets.specs.Bytes.{row, numbers_in};
ghost use Rattle.numbers.specs.Refusals.{answer_in};
ghost use Rattle.reading.specs.Layout.{table_length, gatherer_widths, gatherer_length, values_widths, values_length, events_widths, events_length};
ghost use Rattle.reading.specs.Image.{table_with};
ghost use Rattle.rms.specs.Gather.{gatherer_row};
ghost use Rattle.bodies.specs.Bodies.{phase_numbers, detector_row, phase_of_number, standing_with, detector_from, table_answer, gatherer_answer, window_from, window_answer, detector_answer};

use detection::Detector;
use numbers::Refusal;
use rms::Gatherer;
use rvc::{Change, Phase};
use settings::Settings;
use threshold::Standing;

// Body 3: V, and the places of the values and of their marks.
#[derive(Clone, Copy)]
pub struct WindowRead {
    pub count: u64,
    pub window: [u32; 120],
    pub marks: [u8; 120],
}

// Body 2: count, sum, last sum, whether there is a last half-cycle; the marks of the half-cycle in progress and of the last one.
const GATHERER_WIDTHS: [u8; 6] = [4, 8, 8, 4, 4, 4];

const GATHERER_LENGTH: usize = 4 + 8 + 8 + 4 + 4 + 4;

// How many bytes a count of values takes in this edition: V, k, the fourth number of a change, a start, a duration.
pub const COUNT_WIDTH: usize = 8;

// Body 3: V, 120 places for values, and as many for their marks.
const MARKS_AT: usize = COUNT_WIDTH + 4 * 120;

// The places of values and marks, behind V.
pub const PLACES_LENGTH: usize = 4 * 120 + 120;

const VALUES_LENGTH: usize = COUNT_WIDTH + PLACES_LENGTH;

// Body 4: the phase and a change's four numbers; start and magnitude of dip, swell and interruption; the marks of dip, swell, interruption and change.
const EVENTS_WIDTHS: [u8; 15] = [4, 8, 4, 4, 8, 8, 4, 8, 4, 8, 4, 4, 4, 4, 4];

const EVENTS_LENGTH: usize = 5 * COUNT_WIDTH + 10 * 4;

// Where the sections stand, one behind the other; the table has four entries of 4, 2 and 2 bytes.
pub const SETTINGS_AT: usize = 4 * (4 + 2 + 2);

pub const GATHERER_AT: usize = SETTINGS_AT + Settings::LENGTH;

pub const VALUES_AT: usize = GATHERER_AT + GATHERER_LENGTH;

pub const EVENTS_AT: usize = VALUES_AT + VALUES_LENGTH;

pub const IMAGE_LENGTH: usize = EVENTS_AT + EVENTS_LENGTH;

const TABLE_WIDTHS: [u8; 12] = [4, 2, 2, 4, 2, 2, 4, 2, 2, 4, 2, 2];

// Code, offset and length of each body, in the edition whose counts have so many bytes: a number, since the converter's promises speak of widths.
pub fn put_table(part: &mut [u8], count_width: u64)
    requires { (length part.old ≡ table_length) × (count_width ≤ 8) }
    ensures { part.new ≡ table_with count_width }
{
    let values_length = count_width + PLACES_LENGTH as u64;
    let numbers = [
        1,
        SETTINGS_AT as u64,
        Settings::LENGTH as u64,
        2,
        GATHERER_AT as u64,
        GATHERER_LENGTH as u64,
        3,
        VALUES_AT as u64,
        values_length,
        4,
        VALUES_AT as u64 + values_length,
        5 * count_width + 10 * 4,
    ];
    octets::put_row(part, &TABLE_WIDTHS, &numbers);
}

pub fn read_table(part: &[u8], count_width: u64) -> Result<(), Refusal>
    requires { count_width ≤ 8 }
    ensures { answer_in result ≡ table_answer count_width part.now }
{
    let mut expected = [0u8; SETTINGS_AT];
    put_table(&mut expected, count_width);
    if part == expected.as_slice() {
        Ok(())
    } else {
        Err(Refusal::ImageTable)
    }
}

// Body 2.
pub fn put_gatherer(part: &mut [u8], gatherer: Gatherer)
    requires { length part.old ≡ gatherer_length }
    ensures { part.new ≡ row gatherer_widths (gatherer_row gatherer) }
{
    let numbers = [
        u64::from(gatherer.count),
        gatherer.sum,
        gatherer.last,
        u64::from(gatherer.whole),
        u64::from(gatherer.clipped),
        u64::from(gatherer.last_clipped),
    ];
    octets::put_row(part, &GATHERER_WIDTHS, &numbers);
}

#[tactic(auto, unfolding(crate::specs::Bodies::gatherer_answer))]
pub fn read_gatherer(part: &[u8], settings: Settings) -> Result<Gatherer, Refusal>
    requires { length part.now ≡ gatherer_length }
    ensures { answer_in result ≡ gatherer_answer settings part.now }
{
    let mut numbers = [0u64; 6];
    octets::get_row(part, &GATHERER_WIDTHS, &mut numbers);
    if !rules::gatherer_good(settings.samples, &numbers) {
        return Err(Refusal::ImageBody);
    }
    let [count, sum, last, whole, clipped, last_clipped] = numbers;
    Ok(Gatherer {
        count: count as u32,
        sum,
        last,
        whole: whole == 1,
        clipped: clipped == 1,
        last_clipped: last_clipped == 1,
    })
}

// Body 3: V, the places of the values, and those of their marks.
pub fn put_values(part: &mut [u8], count: u64, window: &[u32; 120], marks: &[u8; 120])
    requires { length part.old ≡ values_length }
    ensures { part.new ≡ row values_widths (count ∷ (window.now ++ marks.now)) }
{
    octets::put_number(&mut part[0..COUNT_WIDTH], count);
    octets::put_words(&mut part[COUNT_WIDTH..MARKS_AT], window);
    part[MARKS_AT..VALUES_LENGTH].copy_from_slice(marks);
}

// The numbers of body 3, whether its rules hold or not.
pub fn read_places(part: &[u8]) -> WindowRead
    requires { length part.now ≡ values_length }
    ensures { result ≡ window_from (numbers_in values_widths part.now) }
{
    let mut window = [0u32; 120];
    octets::get_words(&part[COUNT_WIDTH..MARKS_AT], &mut window);
    let mut marks = [0u8; 120];
    marks.copy_from_slice(&part[MARKS_AT..VALUES_LENGTH]);
    WindowRead {
        count: octets::number(&part[0..COUNT_WIDTH]),
        window,
        marks,
    }
}

// Body 3; `whole` is the gatherer's, of the body before.
pub fn read_window(part: &[u8], settings: Settings, whole: bool) -> Result<WindowRead, Refusal>
    requires { length part.now ≡ values_length }
    ensures { answer_in result ≡ window_answer settings whole part.now }
{
    let read = read_places(part);
    if !rules::values_good(
        &read.window,
        &read.marks,
        read.count,
        settings.window_length(),
        whole,
    ) {
        return Err(Refusal::ImageBody);
    }
    Ok(read)
}

// Of body 4: the phase's number, a change's four, and its mark; zeros outside a change.
fn numbers_of(phase: Phase) -> [u64; 6]
    ensures { result ≡ phase_numbers phase }
{
    match phase {
        Phase::Filling => [0, 0, 0, 0, 0, 0],
        Phase::Unsettled => [1, 0, 0, 0, 0, 0],
        Phase::Steady => [2, 0, 0, 0, 0, 0],
        Phase::Changing(change) => [
            3,
            change.start,
            change.sum,
            change.difference,
            change.stand,
            u64::from(change.clipped),
        ],
    }
}

// Body 4.
pub fn put_detector(part: &mut [u8], detector: Detector)
    requires { length part.old ≡ events_length }
    ensures { part.new ≡ row events_widths (detector_row detector) }
{
    let Detector {
        dip,
        swell,
        interruption,
        ..
    } = detector;
    let [phase, start, sum, difference, stand, mark] = numbers_of(detector.phase);
    let numbers = [
        phase,
        start,
        sum,
        difference,
        stand,
        dip.start,
        dip.magnitude,
        swell.start,
        swell.magnitude,
        interruption.start,
        interruption.magnitude,
        u64::from(dip.clipped),
        u64::from(swell.clipped),
        u64::from(interruption.clipped),
        mark,
    ];
    octets::put_row(part, &EVENTS_WIDTHS, &numbers);
}

// A number of 8 bytes from its two words, the lower one first.
fn wide(low: u32, high: u32) -> u64
    ensures { result ≡ low + 4294967296 * high }
{
    u64::from(low) + 4_294_967_296 * u64::from(high)
}

// Body 4 is read in words of 4 bytes, two to a count: the compiler reads a word in one step, and 8 bytes one by one.
fn events_numbers(part: &[u8]) -> [u64; 15]
    requires { length part.now ≡ events_length }
    ensures { result ≡ numbers_in events_widths part.now }
{
    let mut words = [0u32; 20];
    octets::get_words(part, &mut words);
    [
        u64::from(words[0]),
        wide(words[1], words[2]),
        u64::from(words[3]),
        u64::from(words[4]),
        wide(words[5], words[6]),
        wide(words[7], words[8]),
        u64::from(words[9]),
        wide(words[10], words[11]),
        u64::from(words[12]),
        wide(words[13], words[14]),
        u64::from(words[15]),
        u64::from(words[16]),
        u64::from(words[17]),
        u64::from(words[18]),
        u64::from(words[19]),
    ]
}

// The phase of its number, with what a change carries.
fn phase_of(number: u64, change: Change) -> Phase
    ensures { result ≡ phase_of_number number change }
{
    match number {
        0 => Phase::Filling,
        1 => Phase::Unsettled,
        2 => Phase::Steady,
        _ => Phase::Changing(change),
    }
}

// An event of its numbers; its mark is 0 or 1.
fn standing(start: u64, magnitude: u64, mark: u64) -> Standing
    ensures { result ≡ standing_with start magnitude mark }
{
    Standing {
        start,
        magnitude,
        clipped: mark == 1,
    }
}

// The detector of the numbers of body 4.
fn detector_of(numbers: [u64; 15], count: u64) -> Detector
    ensures { result ≡ detector_from count numbers }
{
    let [
        phase,
        start,
        sum,
        difference,
        stand,
        dip_start,
        dip_magnitude,
        swell_start,
        swell_magnitude,
        interruption_start,
        interruption_magnitude,
        dip_mark,
        swell_mark,
        interruption_mark,
        mark,
    ] = numbers;
    let change = Change {
        start,
        sum,
        difference,
        stand,
        clipped: mark == 1,
    };
    Detector {
        count,
        dip: standing(dip_start, dip_magnitude, dip_mark),
        swell: standing(swell_start, swell_magnitude, swell_mark),
        interruption: standing(
            interruption_start,
            interruption_magnitude,
            interruption_mark,
        ),
        phase: phase_of(phase, change),
    }
}

// Body 4.
pub fn read_detector(part: &[u8], settings: Settings, count: u64) -> Result<Detector, Refusal>
    requires { length part.now ≡ events_length }
    ensures { answer_in result ≡ detector_answer settings count part.now }
{
    let numbers = events_numbers(part);
    if !rules::events_good(&numbers, settings.window_length(), count) {
        return Err(Refusal::ImageBody);
    }
    Ok(detector_of(numbers, count))
}
