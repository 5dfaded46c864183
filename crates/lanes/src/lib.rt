// A block of triples by channels: each channel's samples side by side, and the part of a half-cycle that they are.
#![tactic(auto)]

ghost use Rattle.std.specs.Prelude.{◌≡◌, ◌*◌, ◌%◌, ◌≤◌, ◌<◌, length};
ghost use Rattle.three_reading.specs.Three.{triples_of, channel};
ghost use Rattle.three_reading.specs.Three.Channel.{on_a, on_b, on_c};
ghost use Rattle.lanes.specs.Lanes.{by_turn, lane_in, row_length, laid, PartsAre};

use rms::Part;
use three_reading::Three;

// One of three samples, by its turn.
fn chosen(turn: u16, x: i16, y: i16, z: i16) -> i16
    requires { turn < 3 }
    ensures { result ≡ by_turn turn x y z }
{
    match turn {
        0 => x,
        1 => y,
        _ => z,
    }
}

// Lays each channel's samples side by side, in an order of their own: a sum of squares and a mark do not depend on it. The block is read as three rows of
// neighbours, `a.len()` in each: where that leaves 1 when divided by three, the three samples of one column are of three channels, and which is whose goes in
// turn. Processors so choose eight samples in one step. By place, here and below: after a `zip` with what `iter_mut` lends, nothing is known of the lanes.
fn split(block: &[i16], a: &mut [i16], b: &mut [i16], c: &mut [i16])
    requires { (length block.now ≡ 3 * length a.old) × (length a.old ≤ 256) × (length b.old ≡ length a.old)
        × (length c.old ≡ length a.old) }
    ensures { (a.new ≡ lane_in on_a (length a.old) block.now)
        × (b.new ≡ lane_in on_b (length a.old) block.now)
        × (c.new ≡ lane_in on_c (length a.old) block.now) }
{
    let n = a.len();
    let twice = 2 * n;
    let thrice = 3 * n;
    let first: &[i16] = &block[..n];
    let second: &[i16] = &block[n..twice];
    let third: &[i16] = &block[twice..thrice];
    for i in 0..n {
        let turn = (i as u16) % 3;
        let x = first[i];
        let y = second[i];
        let z = third[i];
        a[i] = chosen(turn, x, z, y);
        b[i] = chosen(turn, y, x, z);
        c[i] = chosen(turn, z, y, x);
    }
}

// Lays them in the block's order.
fn split_in_order(block: &[i16], a: &mut [i16], b: &mut [i16], c: &mut [i16])
    requires { (length block.now ≡ 3 * length a.old) × (length b.old ≡ length a.old) × (length c.old ≡ length a.old) }
    ensures { (a.new ≡ channel on_a (triples_of block.now)) × (b.new ≡ channel on_b (triples_of block.now))
        × (c.new ≡ channel on_c (triples_of block.now)) }
{
    let (triples, _) = block.as_chunks::<3>();
    for (i, triple) in triples.iter().enumerate() {
        a[i] = triple[0];
        b[i] = triple[1];
        c[i] = triple[2];
    }
}

// How many of n triples are read as rows: the most that leave 1 when divided by three, and of none, none.
fn row_length(n: usize) -> usize
    ensures { result ≡ row_length n }
{
    if n == 0 {
        return 0;
    }
    n - (n - 1) % 3
}

// The part of each channel that triples are, at most one half-cycle of them; `a`, `b` and `c` are where their samples are laid side by side.
pub fn parts_of(block: &[i16], a: &mut [i16], b: &mut [i16], c: &mut [i16]) -> Three<Part>
    requires { (length block.now % 3 ≡ 0) × (length block.now ≤ 768) × (length a.old ≡ 256) × (length b.old ≡ 256)
        × (length c.old ≡ 256) }
    ensures { PartsAre (triples_of block.now) result
        × (a.new ≡ laid on_a block.now a.old)
        × (b.new ≡ laid on_b block.now b.old)
        × (c.new ≡ laid on_c block.now c.old) }
{
    let n = block.len() / 3;
    let m = row_length(n);
    let end = 3 * m;
    split(&block[..end], &mut a[..m], &mut b[..m], &mut c[..m]);
    split_in_order(&block[end..], &mut a[m..n], &mut b[m..n], &mut c[m..n]);
    Three {
        a: rms::sum_squares(&a[..n]),
        b: rms::sum_squares(&b[..n]),
        c: rms::sum_squares(&c[..n]),
    }
}
