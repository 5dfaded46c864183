// Numbers as bytes, lowest first, read from slices and written into them: one number, and rows of numbers of given widths.
#![tactic(auto)]

ghost use Rattle.std.specs.Prelude.{◌≡◌, ◌+◌, ◌*◌, ◌≤◌, length, take, drop};
ghost use Rattle.octets.specs.Bytes.{bytes_of, number_of, row, numbers_in, total, Narrow, fours};

// The number that at most 8 bytes are.
pub fn number(bytes: &[u8]) -> u64
    requires { length bytes.now ≤ 8 }
    ensures { result ≡ number_of bytes.now }
{
    let mut x: u64 = 0;
    for i in (0..bytes.len()).rev() {
        x = x * 256 + u64::from(bytes[i]);
    }
    x
}

// The number of 2 bytes at an offset.
pub fn get_u16(bytes: &[u8], offset: usize) -> u16
    requires { offset + 2 ≤ length bytes.now }
    ensures { result ≡ number_of (take 2 (drop offset bytes.now)) }
{
    u16::from_le_bytes([bytes[offset], bytes[offset + 1]])
}

// Writes a number into a part, as many of its bytes as the part has. Byte by byte: `to_le_bytes` gives 8, and the clause takes a part of any length.
pub fn put_number(part: &mut [u8], x: u64)
    ensures { part.new ≡ bytes_of (length part.old) x }
{
    let mut rest = x;
    for byte in part.iter_mut() {
        *byte = (rest % 256) as u8;
        rest /= 256;
    }
}

// Reads a row of numbers, each of at most 8 bytes. By place: after a `zip` with what `iter_mut` lends, nothing is known of the numbers.
pub fn get_row(bytes: &[u8], widths: &[u8], numbers: &mut [u64])
    requires { (length numbers.old ≡ length widths.now) × (length bytes.now ≡ total widths.now) × Narrow widths.now }
    ensures { numbers.new ≡ numbers_in widths.now bytes.now }
{
    let mut rest = bytes;
    for (k, width) in widths.iter().enumerate() {
        let (front, back) = rest.split_at(usize::from(*width));
        numbers[k] = number(front);
        rest = back;
    }
}

// Writes a row of numbers.
pub fn put_row(part: &mut [u8], widths: &[u8], numbers: &[u64])
    requires { (length numbers.now ≡ length widths.now) × (length part.old ≡ total widths.now) }
    ensures { part.new ≡ row widths.now numbers.now }
{
    let mut at: usize = 0;
    for (width, number) in widths.iter().zip(numbers) {
        let end = at + usize::from(*width);
        put_number(&mut part[at..end], *number);
        at = end;
    }
}

// Reads numbers of 4 bytes each, as many as there are places for them. No row: that would want a list of widths as long as the numbers, and places of 64 bits.
pub fn get_words(bytes: &[u8], places: &mut [u32])
    requires { length bytes.now ≡ 4 * length places.old }
    ensures { places.new ≡ numbers_in (fours places.old) bytes.now }
{
    let (words, _) = bytes.as_chunks::<4>();
    for (k, word) in words.iter().enumerate() {
        places[k] = u32::from_le_bytes(*word);
    }
}

// Writes numbers of 4 bytes each. By place: after `chunks_exact_mut`, nothing is known of the bytes.
pub fn put_words(part: &mut [u8], numbers: &[u32])
    requires { length part.old ≡ 4 * length numbers.now }
    ensures { part.new ≡ row (fours numbers.now) numbers.now }
{
    for (k, number) in numbers.iter().enumerate() {
        part[4 * k..4 * k + 4].copy_from_slice(&number.to_le_bytes());
    }
}
