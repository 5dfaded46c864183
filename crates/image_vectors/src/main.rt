// Restores each image of a file of vectors, and prints 01's number for it, 0 where it is accepted. The file has a good image, then changes to it of 14 bytes each
// (outside/image_vectors.py).
#![tactic(auto)]

use bodies::IMAGE_LENGTH;
use detection::Detector;
use rms::Gatherer;
use settings::Settings;
use state::State;

// Some bytes more than an image has, since a vector may make it longer.
const ROOM: usize = IMAGE_LENGTH + 20;

// A vector: the image's length, an offset, how many bytes change there (128 more where further changes follow), each of 2 bytes, low byte first, and up to 8
// bytes.
const VECTOR: usize = 14;

const CHANGES_AT: usize = 6;

// A width from this on keeps the change for the next vector, and asks for no number yet.
const KEPT: usize = 128;

// How many bytes change is told by the width's remainder by this, which 128 more leave as it is; by one more than the most, it never passes the vector's end.
const WIDTHS: usize = 16;

const WIDEST: usize = VECTOR - CHANGES_AT;

// The vectors that are tried, at most.
const VECTORS: u32 = 100_000;

// A state to restore from: restore asks nothing of it.
fn blank() -> State {
    let settings = Settings {
        samples: 0,
        frequency: 0,
        declared: 0,
        limit: 0,
        reduction: 0,
        interruption: 0,
        dip: 0,
        swell: 0,
        hysteresis: 0,
    };
    State {
        settings,
        gatherer: Gatherer::new(),
        detector: Detector::new(),
        window: [0u32; 120],
        marks: [0u8; 120],
    }
}

// The number of the first `length` bytes, or of all.
fn refusal_of(image: &[u8; ROOM], length: usize) -> u32 {
    let restored = image::restore(blank(), &image[..length.min(ROOM)]);
    numbers::answer_number(restored.answer)
}

// Writes bytes at an offset, as far as the image reaches.
fn change(image: &mut [u8], offset: usize, bytes: &[u8]) {
    for (place, byte) in image.iter_mut().skip(offset).zip(bytes) {
        *place = *byte;
    }
}

fn try_vector(
    rt: HostRuntime,
    good: &[u8; IMAGE_LENGTH],
    image: &mut [u8; ROOM],
    vector: &[u8; VECTOR],
) {
    let length = usize::from(octets::get_u16(vector, 0));
    let offset = usize::from(octets::get_u16(vector, 2));
    let width = usize::from(octets::get_u16(vector, 4));
    let end = CHANGES_AT + width % WIDTHS % (WIDEST + 1);
    change(image, offset, &vector[CHANGES_AT..end]);
    if width < KEPT {
        let number = refusal_of(image, length);
        call_items::print(rt, format_args!("{number}\n"));
        change(image, 0, good);
    }
}

fn main(rt: HostRuntime) {
    let mut good = [0u8; IMAGE_LENGTH];
    streams::read_full(&mut rt.stdin(), &mut good);
    let mut image = [0u8; ROOM];
    change(&mut image, 0, &good);
    let mut vector = [0u8; VECTOR];
    for _ in 0..VECTORS {
        let got = streams::read_full(&mut rt.stdin(), &mut vector);
        if got.count < VECTOR {
            return;
        }
        try_vector(rt, &good, &mut image, &vector);
    }
}
