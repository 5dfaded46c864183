// What the programs that make lists of calls share: the items of standard input, the lists and their calls, and the lines that answers are printed in;
// `image_vectors` prints by it too. No contract can say what is read or written.
//
// An item is 6 bytes, and then as many bytes as they say.
//   1 byte   the kind
//   1 byte   what every byte of the lent buffer is before the call
//   2 bytes  a number, low byte first
//   2 bytes  how many bytes follow, low byte first
//
// A list is a start, with how many calls the list has for a number and settings for bytes, and then its calls; a refused start has none. A start prints
// `start`, or `refused` and the number. A program ends with the input, or where a start should stand and does not.
#![tactic(auto)]

ghost use Rattle.std.specs.Prelude.{◌≡◌, ◌++◌, ◌*◌, ◌≤◌, ◌<◌, length, take, drop, replicate};
ghost use Rattle.samples.specs.Samples.{samples_of};
ghost use Rattle.call_items.specs.Items.{kind_of, NextItem, digit_of, hex_of};

use numbers::Refusal;
use reading::{PhaseKind, Told};
use std::fmt::{self, Write};

const HEAD: usize = 6;

// The most bytes that follow an item, and the longest buffer that is lent.
pub const MOST: usize = 65535;

pub const MOST_SAMPLES: usize = 32767;

// The lists that are made, at most.
pub const LISTS: u32 = 1_000_000;

// The bytes that are printed at a time.
const PART: usize = 32_768;

// What an item is. A list skips an item of a kind that its logger does not know.
#[derive(Clone, Copy, Debug, PartialEq, Eq)]
pub enum Kind {
    Start,
    Feed,
    Look,
    Save,
    RestoreSave,
    RestoreBytes,
    Gather,
    Trial,
    Other(u8),
}

impl From<u8> for Kind {
    ghost from_gives = { λ number kind. kind ≡ kind_of number };

    fn from(number: u8) -> Kind {
        match number {
            0 => Kind::Start,
            1 => Kind::Feed,
            2 => Kind::Look,
            3 => Kind::Save,
            4 => Kind::RestoreSave,
            5 => Kind::RestoreBytes,
            6 => Kind::Gather,
            7 => Kind::Trial,
            other => Kind::Other(other),
        }
    }
}

#[derive(Clone, Copy)]
pub struct Item {
    pub kind: Kind,
    pub fill: u8,
    pub number: u16,
    pub length: u16,
}

impl Item {
    // The bytes that follow it.
    pub fn bytes(self, room: &[u8; MOST]) -> &[u8]
        ensures { result.now ≡ take self.length room.now }
    {
        &room[..usize::from(self.length)]
    }

    // The samples of these bytes, low byte first; a last odd byte is none.
    pub fn samples<'a>(self, room: &[u8; MOST], places: &'a mut [i16; MOST_SAMPLES]) -> &'a [i16]
        ensures { result.now ≡ samples_of (take self.length room.now) }
    {
        let count = usize::from(self.length) / 2;
        let block: &mut [i16] = &mut places[..count];
        samples::decode(&room[..2 * count], block);
        block
    }

    // The buffer that its call is lent: as many bytes as its number says.
    pub fn lent(self, space: &mut [u8; MOST]) -> &mut [u8]
        ensures { result.now ≡ replicate self.number self.fill }
    {
        let buffer: &mut [u8] = &mut space[..usize::from(self.number)];
        set_all(buffer, self.fill);
        buffer
    }
}

// The next item, with the bytes that follow it at the start of `bytes`; the others stay. None where the input ends.
pub fn next_item(rt: HostRuntime, bytes: &mut [u8]) -> Option<Item>
    requires { 65535 ≤ length bytes.old }
    ensures { NextItem bytes.old result bytes.new }
{
    let mut head = [0u8; HEAD];
    let got = streams::read_full(&mut rt.stdin(), &mut head);
    if got.count < HEAD {
        return None;
    }
    let count = octets::get_u16(&head, 4);
    let length = usize::from(count);
    let following = streams::read_full(&mut rt.stdin(), &mut bytes[..length]);
    if following.count < length {
        return None;
    }
    Some(Item {
        kind: Kind::from(head[0]),
        fill: head[1],
        number: octets::get_u16(&head, 2),
        length: count,
    })
}

// A logger, with what else the calls of a list leave.
pub trait List: Drop {
    // A fresh one of these settings.
    fn start(settings: &[u8]) -> Result<Self, Refusal>
    where
        Self: Sized;

    // Makes a call and prints its answer. The item's bytes are at the start of `bytes`, and what it is lent at the start of `space`.
    fn call(&mut self, rt: HostRuntime, item: Item, bytes: &[u8; MOST], space: &mut [u8; MOST]);
}

// The calls of a list, from a fresh logger on.
fn make_calls<L: List>(rt: HostRuntime, mut list: L, calls: u16) {
    let mut bytes = [0u8; MOST];
    let mut space = [0u8; MOST];
    for _ in 0..calls {
        if let Some(item) = next_item(rt, &mut bytes) {
            list.call(rt, item, &bytes, &mut space);
        }
    }
}

// A list: start, and its calls where it is not refused.
fn make_list<L: List>(rt: HostRuntime, settings: &[u8], calls: u16) {
    match L::start(settings) {
        Ok(list) => {
            print(rt, "start\n");
            make_calls(rt, list, calls);
        }
        Err(refusal) => {
            print_number(rt, b"refused", u64::from(refusal.number()));
            print(rt, "\n");
        }
    }
}

// The lists of standard input.
pub fn make_lists<L: List>(rt: HostRuntime) {
    let mut bytes = [0u8; MOST];
    for _ in 0..LISTS {
        match next_item(rt, &mut bytes) {
            Some(item) if item.kind == Kind::Start => {
                make_list::<L>(rt, item.bytes(&bytes), item.number);
            }
            _ => return,
        }
    }
}

// Standard output, as far as it can be written: a text that is cut short is no answer.
#[derive(Clone, Copy)]
pub struct Output(pub HostRuntime);

impl Write for Output {
    fn write_str(&mut self, text: &str) -> fmt::Result {
        let _ = streams::write_all(&mut self.0.stdout(), text.as_bytes());
        Ok(())
    }
}

// Prints a text, as with `format_args!`.
pub fn print(rt: HostRuntime, text: impl fmt::Display + Drop) {
    let _ = Output(rt).write(text);
}

// Prints bytes as they are, text or not.
pub fn print_word(rt: HostRuntime, word: &[u8]) {
    let _ = streams::write_all(&mut rt.stdout(), word);
}

// Prints a word and a number.
pub fn print_number(rt: HostRuntime, word: &[u8], number: u64) {
    print_word(rt, word);
    print(rt, format_args!(" {number}"));
}

// Prints what feed tells, or a trial: a word and three numbers.
pub fn print_told(rt: HostRuntime, word: &[u8], told: Told) {
    print_word(rt, word);
    print(
        rt,
        format_args!(" {} {} {}", told.taken, told.written, told.why_number()),
    );
}

// Prints the end of look's line: the phase, and the events that stand.
pub fn print_standing(
    rt: HostRuntime,
    phase: PhaseKind,
    dip: bool,
    swell: bool,
    interruption: bool,
) {
    print(
        rt,
        format_args!(
            " {} {} {} {}\n",
            phase.number(),
            u8::from(dip),
            u8::from(swell),
            u8::from(interruption)
        ),
    );
}

// A digit in base sixteen. `char::from_digit` would be no plainer: it gives an `Option<char>`, to be taken apart and cast.
#[tactic(auto, unfolding(crate::specs::Items::digit_of))]
fn digit(number: u8) -> u8
    requires { number < 16 }
    ensures { result ≡ digit_of number }
{
    if number < 10 {
        b'0' + number
    } else {
        b'a' + (number - 10)
    }
}

// Every byte of a buffer becomes this one.
pub fn set_all(buffer: &mut [u8], byte: u8)
    ensures { buffer.new ≡ replicate (length buffer.old) byte }
{
    buffer.fill(byte);
}

// Two digits for each byte, from the text's start on; what is behind them stays. `{:02x}` would be a write for each byte, and no contract says what it puts
// into an array. By place: after a `zip` with what `chunks_exact_mut` lends, nothing is known of the text.
fn put_hex(text: &mut [u8], bytes: &[u8])
    requires { 2 * length bytes.now ≤ length text.old }
    ensures { text.new ≡ hex_of bytes.now ++ drop (2 * length bytes.now) text.old }
{
    for (i, byte) in bytes.iter().enumerate() {
        text[2 * i] = digit(*byte / 16);
        text[2 * i + 1] = digit(*byte % 16);
    }
}

// Prints a space, bytes in base sixteen, and the line's end.
pub fn print_bytes(rt: HostRuntime, bytes: &[u8]) {
    print(rt, " ");
    let mut text = [0u8; 2 * PART];
    for part in bytes.chunks(PART) {
        put_hex(&mut text, part);
        let _ = streams::write_all(&mut rt.stdout(), &text[..2 * part.len()]);
    }
    print(rt, "\n");
}
