// Samples from bytes: low byte first, two's complement.
#![tactic(auto)]

ghost use Rattle.std.specs.Prelude.{◌≡◌, ◌*◌, length};
ghost use Rattle.samples.specs.Samples.{samples_of};

// Reads as many samples as there are places for them. By place: after a `zip` with what `iter_mut` lends, nothing is known of the samples.
pub fn decode(bytes: &[u8], places: &mut [i16])
    requires { length bytes.now ≡ 2 * length places.old }
    ensures { places.new ≡ samples_of bytes.now }
{
    let (pairs, _) = bytes.as_chunks::<2>();
    for (k, pair) in pairs.iter().enumerate() {
        places[k] = i16::from_le_bytes(*pair);
    }
}
