// What event programs share: the text of records and of the last line, standard input and output, and what is told on standard error. No contract can say what is
// read or written.
#![tactic(auto)]

ghost use Rattle.std.specs.Prelude.{◌≡◌, ◌&&◌, ◌++◌, ◌+◌, ◌*◌, ◌≤◌, length, IfSome};
ghost use Rattle.arrayvec.specs.ArrayString.{array_string_len};
ghost use Rattle.arrayvec.specs.ArrayVec.{array_vec_len};
ghost use Rattle.io.specs.Counts.{IsPrefixLen};
ghost use Rattle.numbers.specs.Notation.{◌≡ᵇ◌};
ghost use Rattle.settings.specs.Settings.{ValidSettings};
ghost use Rattle.reading.specs.Layout.{record_length};
ghost use Rattle.reading.specs.Told.{why_number};
ghost use Rattle.event_lines.specs.Text.{column, kind_name, line_of, lines_of};

use arrayvec::{ArrayString, ArrayVec};
use itoa::Buffer;
use reading::{Event, Kind, PhaseKind, Stop};
use records::RECORD_LENGTH;
use settings::Settings;
use std::fmt::Write;
use std::io::Error;
use streams::Got;

// The longest line: a kind of 12 letters, four columns of a space and at most 20 digits, and the line's end.
pub const LINE: usize = 97;

// A line of a word of 7 letters at most, a column and the line's end.
const WORD_LINE: usize = 29;

// Room for a line on standard error: the program's name, and at most 96 bytes.
const MESSAGE: usize = 128;

// Room for the reason of a failure, as std tells it.
const REASON: usize = 96;

// Room for a line that tells a failure: a message, a colon and a space, the reason and the line's end.
const FAILURE: usize = MESSAGE + REASON + 3;

// What the samples leave: the number of values, the events that stand and the phase, as look tells them, and why no more are taken.
#[derive(Clone, Copy)]
pub struct Ending {
    pub count: u64,
    pub dip: bool,
    pub swell: bool,
    pub interruption: bool,
    pub phase: PhaseKind,
    pub why: Option<Stop>,
}

// A program's standard input, output and error. A line on the last begins with the program's name, a colon and a space. What is printed and the name are bytes,
// text or not.
#[derive(Clone, Copy)]
pub struct Console<'a> {
    rt: HostRuntime,
    name: &'a [u8],
    ghost short: { length name.now ≤ 32 },
}

// A space and a number. Text is appended here, and in the lines made of it, by what cannot fail: `write!` promises its text only where it gives Ok, and `put_lines`
// promises every line.
fn put_column<const CAP: usize>(text: &mut ArrayString<CAP>, number: u64)
    requires { array_string_len text.old + 21 ≤ CAP }
    ensures text { text.new.bytes ≡ text.old.bytes ++ column number }
    ensures upper_bound { array_string_len text.new ≤ array_string_len text.old + 21 }
{
    let mut digits = Buffer::new();
    text.push(' ');
    text.push_str(digits.format(number));
}

// The name of a kind, from its number in a record. Every other number is told as the fourth kind, as `kind_name` has it.
#[tactic(auto, unfolding(crate::specs::Text::kind_name))]
fn name_of(kind: u8) -> &'static str
    ensures name { result.now ≡ kind_name kind }
    ensures upper_bound { length result.now ≤ 12 }
{
    if kind == Kind::Dip.number() {
        return "dip";
    }
    if kind == Kind::Swell.number() {
        return "swell";
    }
    if kind == Kind::Interruption.number() {
        return "interruption";
    }
    "rvc"
}

fn put_line<const CAP: usize>(text: &mut ArrayString<CAP>, event: Event)
    requires { array_string_len text.old + 97 ≤ CAP }
    ensures text { text.new.bytes ≡ text.old.bytes ++ line_of event }
    ensures upper_bound { array_string_len text.new ≤ array_string_len text.old + 97 }
{
    text.push_str(name_of(event.kind));
    put_column(text, event.start);
    put_column(text, event.duration);
    put_column(text, event.first);
    put_column(text, event.second);
    text.push('\n');
}

// Appends the lines of the first records.
pub fn put_lines<const CAP: usize>(text: &mut ArrayString<CAP>, records: &[u8], count: usize)
    requires { (record_length * count ≤ length records.now) × (array_string_len text.old + 97 * count ≤ CAP) }
    ensures { text.new.bytes ≡ text.old.bytes ++ lines_of count records.now }
{
    for record in records[..RECORD_LENGTH * count].chunks_exact(RECORD_LENGTH) {
        put_line(text, records::get_record(record));
    }
}

// The system's words for a failure: std puts the error's number behind them, in parentheses.
fn words(reason: &str) -> &str
    ensures { length result.now ≤ length reason.now }
{
    match reason.rsplit_once(" (") {
        Some((told, _)) => told,
        None => reason,
    }
}

// Whether there may be more behind a chunk: not where something failed, nor behind a short one, nor at V's end.
pub fn goes_on(good: bool, got: usize, whole: usize, why: Option<Stop>) -> bool
    ensures { result ≡ (good && got ≡ᵇ whole && why_number why ≡ᵇ 0) }
{
    good && got == whole && why.is_none()
}

// Appends bytes for which there is room.
fn put<const CAP: usize>(text: &mut ArrayVec<u8, CAP>, bytes: &[u8])
    requires { array_vec_len text.old + length bytes.now ≤ CAP }
    ensures items { text.new.items ≡ text.old.items ++ bytes.now }
    ensures len { array_vec_len text.new ≡ array_vec_len text.old + length bytes.now }
{
    let _ = text.try_extend_from_slice(bytes);
}

impl<'a> Console<'a> {
    pub fn new(rt: HostRuntime, name: &'a [u8]) -> Console<'a>
        requires { length name.now ≤ 32 }
    {
        Console { rt, name }
    }

    // Writes on standard error. There is nobody to tell a failure.
    fn say(self, text: &[u8]) {
        let _ = streams::write_all(&mut self.rt.stderr(), text);
    }

    // Tells a line on standard error.
    fn tell(self, line: &str)
        requires { length line.now ≤ 96 }
    {
        let mut text = ArrayVec::<u8, MESSAGE>::new();
        put(&mut text, self.name);
        put(&mut text, line.as_bytes());
        self.say(&text);
    }

    // Tells on standard error that a call failed on a stream, and why, in the system's words.
    fn fail(self, stream: &str, error: Error)
        requires { length stream.now ≤ 96 }
    {
        let mut reason = ArrayString::<REASON>::new();
        let _ = write!(reason, "{error}");
        let mut text = ArrayVec::<u8, FAILURE>::new();
        put(&mut text, self.name);
        put(&mut text, stream.as_bytes());
        put(&mut text, b": ");
        put(&mut text, words(reason.as_str()).as_bytes());
        put(&mut text, b"\n");
        self.say(&text);
    }

    // Reads until the bytes are full or the input ends; a read that fails is told.
    pub fn read(self, bytes: &mut [u8]) -> Got
        ensures { IsPrefixLen result.count bytes.new }
    {
        let got = streams::read_full(&mut self.rt.stdin(), bytes);
        if let Some(error) = got.failed {
            self.fail("standard input", error);
        }
        got
    }

    // Prints, unless something was lost before, and tells whether nothing is; a write that fails is told.
    pub fn print(self, printed: bool, text: &[u8]) -> bool
        ensures { result ≡ (printed && result) }
    {
        if !printed {
            return false;
        }
        match streams::write_all(&mut self.rt.stdout(), text) {
            Ok(()) => true,
            Err(error) => {
                self.fail("standard output", error);
                false
            }
        }
    }

    pub fn print_heading(self) -> bool {
        self.print(true, b"kind start halves first second\n")
    }

    // Prints a line of a word of 7 letters at most and a number.
    fn print_line(self, word: &str, number: u64) -> bool
        requires { length word.now ≤ 7 }
    {
        let mut text = ArrayString::<WORD_LINE>::new();
        text.push_str(word);
        put_column(&mut text, number);
        text.push('\n');
        self.print(true, text.as_str().as_bytes())
    }

    // Reads the settings; or none, where they are not read, or refused. The number of refused ones is printed, and a read that fails is told.
    pub fn begin(self) -> Option<Settings>
        ensures { IfSome result ValidSettings }
    {
        let mut bytes = [0u8; Settings::LENGTH];
        let got = self.read(&mut bytes);
        if got.failed.is_some() {
            return None;
        }
        match Settings::from_bytes(&bytes[..got.count]) {
            Ok(settings) => Some(settings),
            Err(refusal) => {
                self.print_line("refused", u64::from(refusal.number()));
                None
            }
        }
    }

    // Tells of an event that stands: it has no record, since it has not ended.
    fn tell_standing(self, stands: bool, line: &str)
        requires { length line.now ≤ 96 }
    {
        if stands {
            self.tell(line);
        }
    }

    // Prints the number of values; tells of what has no record, and of V's end, where samples are left.
    pub fn finish(self, ending: Ending) {
        if self.print_line("values", ending.count) {
            self.tell_standing(ending.dip, "not ended: dip\n");
            self.tell_standing(ending.swell, "not ended: swell\n");
            self.tell_standing(ending.interruption, "not ended: interruption\n");
            self.tell_standing(ending.phase == PhaseKind::Changing, "not ended: rvc\n");
            if ending.why == Some(Stop::End) {
                self.tell("the number of values is at its end: further samples are not taken\n");
            }
        }
    }
}
