// 02's converter: carries records and images from the earlier edition to this one, and back. An edition is known by how many bytes its counts of values take:
// V, k, the fourth number of a change, every start and duration.
#![tactic(auto)]

ghost use Rattle.std.specs.Prelude.{◌≡◌, ◌^◌, ◌≤◌, length};
ghost use Rattle.octets.specs.Bytes.{row, numbers_in, total};
ghost use Rattle.numbers.specs.Notation.{◌<ᵇ◌};
ghost use Rattle.numbers.specs.Refusals.{number_in};
ghost use Rattle.reading.specs.Layout.{count_width, earlier_width, record_widths_with, values_widths_with, events_widths_with, image_length_with, record_length_with};
ghost use Rattle.reading.specs.Engineer.{over};
ghost use Rattle.conversion.specs.Conversion.{rows_in, all_rows, good_row, fits, records_as, converted_to, records_converted, image_as, image_converted};
ghost use Rattle.conversion.specs.Promises.{Promises};
ghost use Rattle.conversion.specs.ConversionBench.{ConversionReadings};

use bodies::{COUNT_WIDTH, IMAGE_LENGTH, PLACES_LENGTH, SETTINGS_AT, VALUES_AT};
use numbers::Refusal;

// The width of a count in the earlier edition, and the greatest count that it holds.
const EARLIER_WIDTH: usize = 4;

const EARLIER_MOST: u64 = 4_294_967_295;

// The earlier edition's image: V and five more counts have their own width.
const EARLIER_IMAGE_LENGTH: usize = VALUES_AT + PLACES_LENGTH + 10 * 4 + 6 * EARLIER_WIDTH;

// An edition, by the width of its counts.
#[derive(Clone, Copy)]
struct Edition {
    width: usize,
    ghost narrow: { width ≤ 8 },
}

impl Edition {
    const EARLIER: Edition = Edition {
        width: EARLIER_WIDTH,
    };

    const THIS: Edition = Edition { width: COUNT_WIDTH };

    fn record_widths(self) -> [u8; 7]
        ensures { result ≡ record_widths_with self.width }
    {
        let width = self.width as u8;
        [1, 1, 2, width, width, 4, 4]
    }

    fn record_length(self) -> usize
        ensures { (result ≡ record_length_with self.width) × (12 ≤ result) × (result ≤ 28) }
    {
        12 + 2 * self.width
    }

    // The numbers of a record.
    fn read(self, bytes: &[u8]) -> [u64; 7]
        requires { length bytes.now ≡ record_length_with self.width }
        ensures { result ≡ numbers_in (record_widths_with self.width) bytes.now }
    {
        let widths = self.record_widths();
        let mut numbers = [0u64; 7];
        octets::get_row(bytes, &widths, &mut numbers);
        numbers
    }

    fn events_widths(self) -> [u8; 15]
        ensures { result ≡ events_widths_with self.width }
    {
        let width = self.width as u8;
        [
            4, width, 4, 4, width, width, 4, width, 4, width, 4, 4, 4, 4, 4,
        ]
    }
}

// Whether so many bytes hold a number. All numbers are below 256^8.
fn holds(width: u8, number: u64) -> bool
    ensures { result ≡ (number <ᵇ 256 ^ width) }
{
    8 <= width || number < 1 << (8 * u32::from(width))
}

// Whether widths hold the numbers of a row.
fn row_fits(widths: &[u8; 7], numbers: &[u64; 7]) -> bool
    ensures { result ≡ fits widths.now numbers.now }
{
    widths
        .iter()
        .zip(numbers)
        .all(|(width, number)| holds(*width, *number))
}

// Kind 1 to 4, mark 0 or 1, two zero bytes: the first four bytes, which are alike in every edition, so that the other numbers need not be read.
fn row_good(record: &[u8], from: Edition) -> bool
    requires { length record.now ≡ record_length_with from.width }
    ensures { result ≡ good_row (numbers_in (record_widths_with from.width) record.now) }
{
    let kind = record[0];
    let mark = record[1];
    let zeros = octets::get_u16(record, 2);
    (1 <= kind) & ((kind <= 4) & ((mark <= 1) & (zeros == 0)))
}

// Whether each whole record of a list is one; what is behind them is passed over.
fn all_good(list: &[u8], from: Edition) -> bool
    ensures { result ≡ all_rows good_row (rows_in from.width list.now) }
{
    list.chunks_exact(from.record_length())
        .all(|record| row_good(record, from))
}

// Whether the other edition's widths hold the numbers of each of them.
fn all_fit(list: &[u8], from: Edition, to: Edition) -> bool
    ensures { result ≡ all_rows (fits (record_widths_with to.width)) (rows_in from.width list.now) }
{
    let others = to.record_widths();
    list.chunks_exact(from.record_length())
        .all(|record| row_fits(&others, &from.read(record)))
}

// Writes the whole records of a list with the other edition's widths at the front of the output. By place there: after a `zip` with what `chunks_exact_mut` lends,
// nothing is known of the output.
fn put_records(list: &[u8], from: Edition, output: &mut [u8], to: Edition)
    requires { length (records_as from.width to.width list.now) ≤ length output.old }
    ensures { output.new ≡ over (records_as from.width to.width list.now) output.old }
{
    let others = to.record_widths();
    let other_length = to.record_length();
    let mut written: usize = 0;
    for record in list.chunks_exact(from.record_length()) {
        let written_end = written + other_length;
        octets::put_row(
            &mut output[written..written_end],
            &others,
            &from.read(record),
        );
        written = written_end;
    }
}

// The refusals in the order of the tests; else the records.
fn records_to(list: &[u8], from: Edition, output: &mut [u8], to: Edition) -> Result<(), Refusal>
    ensures { converted_to (number_in result) output.new ≡ records_converted from.width to.width list.now output.old }
{
    let length = from.record_length();
    if list.len() % length != 0 {
        return Err(Refusal::NotConvertible);
    }
    if !all_good(list, from) {
        return Err(Refusal::NotConvertible);
    }
    if !all_fit(list, from, to) {
        return Err(Refusal::CountTooGreat);
    }
    if output.len() / to.record_length() < list.len() / length {
        return Err(Refusal::Room);
    }
    put_records(list, from, output, to);
    Ok(())
}

// Records of the earlier edition, 20 bytes each, as records of this one, 28 bytes each.
pub fn convert_records(earlier: &[u8], records: &mut [u8]) -> Result<(), Refusal>
    ensures { converted_to (number_in result) records.new ≡ records_converted earlier_width count_width earlier.now records.old }
{
    records_to(earlier, Edition::EARLIER, records, Edition::THIS)
}

// And back.
pub fn convert_records_back(records: &[u8], earlier: &mut [u8]) -> Result<(), Refusal>
    ensures { converted_to (number_in result) earlier.new ≡ records_converted count_width earlier_width records.now earlier.old }
{
    records_to(records, Edition::THIS, earlier, Edition::EARLIER)
}

// Body 3 with another width: V, and the places behind it as they are.
fn put_values(values: &[u8], from: Edition, part: &mut [u8], to: Edition)
    requires { (length values.now ≡ total (values_widths_with from.width)) × (length part.old ≡ total (values_widths_with to.width)) }
    ensures { part.new ≡ row (values_widths_with to.width) (numbers_in (values_widths_with from.width) values.now) }
{
    octets::put_number(
        &mut part[0..to.width],
        octets::number(&values[0..from.width]),
    );
    part[to.width..to.width + PLACES_LENGTH].copy_from_slice(
        &values[from.width..from.width + PLACES_LENGTH],
    );
}

// Body 4 with another width.
fn put_events(events: &[u8], from: Edition, part: &mut [u8], to: Edition)
    requires { (length events.now ≡ total (events_widths_with from.width)) × (length part.old ≡ total (events_widths_with to.width)) }
    ensures { part.new ≡ row (events_widths_with to.width) (numbers_in (events_widths_with from.width) events.now) }
{
    let widths = from.events_widths();
    let others = to.events_widths();
    let mut numbers = [0u64; 15];
    octets::get_row(events, &widths, &mut numbers);
    octets::put_row(part, &others, &numbers);
}

// An image with the same numbers in the other edition.
fn put_image(image: &[u8], from: Edition, output: &mut [u8], to: Edition)
    requires { (length image.now ≡ image_length_with from.width) × (length output.old ≡ image_length_with to.width) }
    ensures { output.new ≡ image_as from.width to.width image.now }
{
    let events = VALUES_AT + from.width + PLACES_LENGTH;
    let end = events + 5 * from.width + 10 * 4;
    let other_events = VALUES_AT + to.width + PLACES_LENGTH;
    let other_end = other_events + 5 * to.width + 10 * 4;
    bodies::put_table(&mut output[0..SETTINGS_AT], to.width as u64);
    output[SETTINGS_AT..VALUES_AT].copy_from_slice(&image[SETTINGS_AT..VALUES_AT]);
    put_values(
        &image[VALUES_AT..events],
        from,
        &mut output[VALUES_AT..other_events],
        to,
    );
    put_events(
        &image[events..end],
        from,
        &mut output[other_events..other_end],
        to,
    );
}

// An image of the earlier edition, 764 bytes, as one of this edition, 788 bytes. This edition's restore accepts it exactly where the earlier one's accepts what
// it is made of.
pub fn convert_image(earlier: &[u8], image: &mut [u8]) -> Result<(), Refusal>
    ensures { converted_to (number_in result) image.new ≡ image_converted earlier_width count_width earlier.now image.old }
{
    if earlier.len() != EARLIER_IMAGE_LENGTH {
        return Err(Refusal::NotConvertible);
    }
    let Ok(()) = bodies::read_table(&earlier[0..SETTINGS_AT], Edition::EARLIER.width as u64) else {
        return Err(Refusal::NotConvertible);
    };
    let mut wide = [0u8; IMAGE_LENGTH];
    put_image(earlier, Edition::EARLIER, &mut wide, Edition::THIS);
    let Ok(_) = image::read(&wide) else {
        return Err(Refusal::NotConvertible);
    };
    if image.len() < IMAGE_LENGTH {
        return Err(Refusal::Room);
    }
    image[0..IMAGE_LENGTH].copy_from_slice(&wide);
    Ok(())
}

// And back. No count of an accepted image is above V.
pub fn convert_image_back(image: &[u8], earlier: &mut [u8]) -> Result<(), Refusal>
    ensures { converted_to (number_in result) earlier.new ≡ image_converted count_width earlier_width image.now earlier.old }
{
    let Ok(state) = image::read(image) else {
        return Err(Refusal::NotConvertible);
    };
    if EARLIER_MOST < state.detector.count {
        return Err(Refusal::CountTooGreat);
    }
    if earlier.len() < EARLIER_IMAGE_LENGTH {
        return Err(Refusal::Room);
    }
    put_image(
        image,
        Edition::THIS,
        &mut earlier[0..EARLIER_IMAGE_LENGTH],
        Edition::EARLIER,
    );
    Ok(())
}

// What the converter promises beyond the equations above: there and back is the same bytes, and a converted image restores to the logger with the same numbers.
pub fn promises()
    ensures { Promises }
{}

// Bench readings of the converter, and of V's end, as one promise about definitions.
pub fn bench_readings()
    ensures { ConversionReadings }
{}
