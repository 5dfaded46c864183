// How many rapid voltage changes a day has, of those that network contracts cap: 02's count per day.
#![tactic(auto)]

ghost use Rattle.std.specs.Prelude.{◌≡◌, ◌*◌, ◌^◌, ◌≤◌, ◌<◌};
ghost use Rattle.numbers.specs.Refusals.{answer_in};
ghost use Rattle.settings.specs.Settings.{window_length_of};
ghost use Rattle.reading.specs.Records.{events_of};
ghost use Rattle.day_count.specs.Days.{day_length, day_of, change_on, cap, capped, known_kind, counted_under, day_counted};
ghost use Rattle.day_count.specs.DayBench.{DayReadings};
ghost use Rattle.day_count.specs.Count.{tally_of, tally_answer};

use numbers::Refusal;
use reading::{Event, Kind};
use records::RECORD_LENGTH;
use settings::Settings;

// Seconds in a day, of N half-cycles each.
const SECONDS: u64 = 86_400;

// The cap on each count in 24 hours, up to 35 kV and above.
const CAP: u64 = 24;

const CAP_ABOVE: u64 = 12;

// A count of rapid voltage changes, and whether it is over its cap.
#[derive(Clone, Copy)]
pub struct Capped {
    pub count: u64,
    pub over: bool,
}

// What a day has: the changes whose second magnitude is at least 3 % of the declared voltage, and those whose first is above 5 %.
#[derive(Clone, Copy)]
pub struct DayCount {
    pub second: Capped,
    pub first: Capped,
}

// Of records: how many count by their second magnitude, and how many by their first.
#[derive(Clone, Copy)]
struct Tally {
    second: u64,
    first: u64,
}

// A day in half-cycles.
fn day_length(settings: Settings) -> u64
    ensures { (result ≡ day_length settings) × (8640000 ≤ result) × (result ≤ 10368000) }
{
    SECONDS * settings.window_length()
}

// So many percent of the declared voltage, a hundred times, in N-ths: what a hundred times a magnitude is held against.
fn percent(settings: Settings, part: u64) -> u64
    requires { part ≤ 100 }
    ensures { result ≡ part * window_length_of settings * settings.declared }
{
    part * settings.window_length() * u64::from(settings.declared)
}

// Whether a record's kind is one of the four.
fn is_known(event: Event) -> bool
    ensures { result ≡ known_kind event.kind }
{
    Kind::Dip.number() <= event.kind && event.kind <= Event::CHANGE
}

// A day by its number, under settings: days count from 0, and value 0 lies z half-cycles after the midnight that begins it.
#[derive(Clone, Copy)]
struct Day {
    settings: Settings,
    z: u64,
    day: u64,
    ghost begun: { z < day_length settings },
}

impl Day {
    // The day of a value. The sum of z and the value is not taken: 8 bytes may not hold it.
    fn of_value(self, value: u64) -> u64
        ensures { result ≡ day_of self.settings self.z value }
    {
        let length = day_length(self.settings);
        value / length + (self.z + value % length) / length
    }

    // Whether a record is a change of the day.
    fn has_change(self, event: Event) -> bool
        ensures { result ≡ change_on self.settings self.z self.day event }
    {
        let start = event.start;
        event.kind == Event::CHANGE && self.of_value(start) == self.day
    }

    // What one record comes to.
    fn tally_of(self, event: Event) -> Tally
        requires { (event.first < 2 ^ 32) × (event.second < 2 ^ 32) }
        ensures { result ≡ tally_of self.settings self.z self.day event }
    {
        let on = self.has_change(event);
        let second = percent(self.settings, 3) <= 100 * event.second;
        let first = percent(self.settings, 5) < 100 * event.first;
        Tally {
            second: u64::from(on && second),
            first: u64::from(on && first),
        }
    }

    // What the whole records in bytes come to, or that the kind of one is none; what is behind them is passed over.
    fn tally_list(self, records: &[u8]) -> Result<Tally, Refusal>
        ensures { answer_in result ≡ tally_answer self.settings self.z self.day (events_of records.now) }
    {
        let (whole, _) = records.as_chunks::<RECORD_LENGTH>();
        let mut second: u64 = 0;
        let mut first: u64 = 0;
        for bytes in whole {
            let event = records::get_record(bytes);
            if !is_known(event) {
                return Err(Refusal::RecordKind);
            }
            let one = self.tally_of(event);
            second += one.second;
            first += one.first;
        }
        Ok(Tally { second, first })
    }
}

// The cap on each count.
fn cap_of(above: bool) -> u64
    ensures { result ≡ cap above }
{
    if above { CAP_ABOVE } else { CAP }
}

// A count, held against the cap.
fn against_cap(count: u64, above: bool) -> Capped
    ensures { result ≡ capped above count }
{
    Capped {
        count,
        over: cap_of(above) < count,
    }
}

// Under settings that start accepts: a refusal of the list, or the count.
#[tactic(auto, unfolding(crate::specs::Days::list_refusal, crate::specs::Days::day_count))]
fn count_under(
    settings: Settings,
    records: &[u8],
    z: u64,
    above: bool,
    day: u64,
) -> Result<DayCount, Refusal>
    ensures { answer_in result ≡ counted_under settings records.now z above day }
{
    if day_length(settings) <= z {
        return Err(Refusal::DayStart);
    }
    let counted = Day { settings, z, day };
    if records.len() % RECORD_LENGTH != 0 {
        return Err(Refusal::PartRecord);
    }
    let tally = counted.tally_list(records)?;
    Ok(DayCount {
        second: against_cap(tally.second, above),
        first: against_cap(tally.first, above),
    })
}

// Counts the changes of a day in a list of records. Value 0 lies z half-cycles after midnight; `above` says whether the supply is above 35 kV;
// days count from 0.
#[tactic(auto, unfolding(crate::specs::Days::day_counted))]
pub fn count_day(
    settings: &[u8],
    records: &[u8],
    z: u64,
    above: bool,
    day: u64,
) -> Result<DayCount, Refusal>
    ensures { answer_in result ≡ day_counted settings.now records.now z above day }
{
    let accepted = Settings::from_bytes(settings)?;
    count_under(accepted, records, z, above, day)
}

// Bench readings of the count per day, as one promise about its definitions.
pub fn bench_readings()
    ensures { DayReadings }
{}
