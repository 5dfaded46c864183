// The refusals, each with the number that papers and C callers know it by. In specs/: what the readings are written with: tests and choices, answers, rules.
#![tactic(auto)]

ghost use Rattle.std.specs.Prelude.{◌≡◌};
ghost use Rattle.numbers.specs.Refusals.{number_of, number_in};

// Why a call refuses what it is given, in the order of the numbers, 1 to 19.
#[derive(Clone, Copy, Debug, PartialEq, Eq)]
pub enum Refusal {
    // Settings: they are not 36 bytes; M, F, U, T with H, or the levels are out of range.
    SettingsLength,
    Samples,
    Frequency,
    Declared,
    Limit,
    Levels,
    // A buffer that is to be written is too short.
    Room,
    // An image: its length, its table, its settings, or a body's numbers.
    ImageLength,
    ImageTable,
    ImageSettings,
    ImageBody,
    // The bytes of a block are no whole number of samples; a reply is too short; a block is no whole number of triples.
    OddSamples,
    ReplyRoom,
    PartTriple,
    // The count of a day: value 0 lies a day or more after midnight; the bytes are no whole number of records; a record's kind is none.
    DayStart,
    PartRecord,
    RecordKind,
    // The converter: a count does not fit the earlier edition; what is given is no list of records or no image.
    CountTooGreat,
    NotConvertible,
}

impl Refusal {
    pub fn number(self) -> u32
        ensures { result ≡ number_of self }
    {
        match self {
            Refusal::SettingsLength => 1,
            Refusal::Samples => 2,
            Refusal::Frequency => 3,
            Refusal::Declared => 4,
            Refusal::Limit => 5,
            Refusal::Levels => 6,
            Refusal::Room => 7,
            Refusal::ImageLength => 8,
            Refusal::ImageTable => 9,
            Refusal::ImageSettings => 10,
            Refusal::ImageBody => 11,
            Refusal::OddSamples => 12,
            Refusal::ReplyRoom => 13,
            Refusal::PartTriple => 14,
            Refusal::DayStart => 15,
            Refusal::PartRecord => 16,
            Refusal::RecordKind => 17,
            Refusal::CountTooGreat => 18,
            Refusal::NotConvertible => 19,
        }
    }
}

// An answer as C callers are told it: 0, or the refusal's number.
pub fn answer_number(answer: Result<(), Refusal>) -> u32
    ensures { result ≡ number_in answer }
{
    match answer {
        Ok(()) => 0,
        Err(refusal) => refusal.number(),
    }
}
