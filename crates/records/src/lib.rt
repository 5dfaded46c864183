// A record in bytes, and the records due at one value.
#![tactic(auto)]

ghost use Rattle.std.specs.Prelude.{◌≡◌, [], ◌∷◌, ◌*◌, ◌≤◌, length};
ghost use Rattle.reading.specs.Records.{record_bytes, event_of};
ghost use Rattle.reading.specs.Engineer.{over};
ghost use Rattle.reading.specs.Layout.{record_length};
ghost use Rattle.records.specs.Due.{records_of, places_of};

use reading::{Event, Record};

// A record: kind, mark, zero bytes, start, duration, first and second magnitude.
pub const RECORD_LENGTH: usize = 28;

const WIDTHS: [u8; 7] = [1, 1, 2, 8, 8, 4, 4];

// The records due at one value, by kind.
#[derive(Clone, Copy)]
pub struct Due {
    pub dip: Option<Record>,
    pub swell: Option<Record>,
    pub interruption: Option<Record>,
    pub change: Option<Record>,
}

// Writes a record into its part of a buffer. A part and no `&mut [u8; 28]`, here and below: callers cut it from a buffer, and an array out of a slice may fail.
pub fn put_record(part: &mut [u8], record: Record)
    requires { length part.old ≡ record_length }
    ensures { part.new ≡ record_bytes («record» ∷ []) }
{
    let event = record.event;
    let numbers = [
        u64::from(event.kind),
        u64::from(record.clipped),
        0,
        event.start,
        event.duration,
        event.first,
        event.second,
    ];
    octets::put_row(part, &WIDTHS, &numbers);
}

// The event of a record.
pub fn get_record(bytes: &[u8]) -> Event
    requires { length bytes.now ≡ record_length }
    ensures { result ≡ event_of bytes.now }
{
    let mut numbers = [0u64; 7];
    octets::get_row(bytes, &WIDTHS, &mut numbers);
    let [kind, _, _, start, duration, first, second] = numbers;
    Event {
        kind: kind as u8,
        start,
        duration,
        first,
        second,
    }
}

impl Due {
    // Each in its place, in the order of their kinds.
    fn places(self) -> [Option<Record>; 4]
        ensures { result ≡ places_of self }
    {
        [self.dip, self.swell, self.interruption, self.change]
    }

    // How many there are. Counted in a loop: with `iter().flatten().count()` the proof did not close.
    pub fn count(self) -> usize
        ensures { result ≡ length (records_of self) }
    {
        let mut count = 0;
        for ended in self.places() {
            count += usize::from(ended.is_some());
        }
        count
    }

    // Writes their records, by kind, at the front of a buffer. With most values there are none.
    pub fn put(self, buffer: &mut [u8])
        requires { record_length * length (records_of self) ≤ length buffer.old }
        ensures { buffer.new ≡ over (record_bytes (records_of self)) buffer.old }
    {
        if self.count() == 0 {
            return;
        }
        let mut at = 0;
        for place in self.places() {
            if let Some(record) = place {
                let end = at + RECORD_LENGTH;
                put_record(&mut buffer[at..end], record);
                at = end;
            }
        }
    }
}
