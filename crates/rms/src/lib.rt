// From samples to values: parts of a half-cycle, the integer root, the RMS value of two half-cycles, and the gatherer of half-cycles.
#![tactic(auto)]

ghost use Rattle.std.specs.Prelude.{◌≡◌, ◌+◌, ◌*◌, ◌/◌, ◌^◌, ◌<◌, ◌≤◌, true, length};
ghost use Rattle.reading.specs.Values.{root as root_of, rms};
ghost use Rattle.rms.specs.Roots.{roots_from};
ghost use Rattle.rms.specs.Gather.{squared_of, joined, part_of, pair_with, no_sample, with_part, with_half, cut as cut_of, gathered, ValidGatherer};

// A sample's square, and whether the sample is clipped.
#[derive(Clone, Copy)]
pub struct Squared {
    pub square: u32,
    pub clipped: bool,
}

// A part of a half-cycle: how many samples, the sum of their squares, and whether one is clipped.
#[derive(Clone, Copy)]
pub struct Part {
    pub count: u32,
    pub squares: u64,
    pub clipped: bool,
}

// The square of a sample, and whether it is one of the two counts at which a recording is clipped.
pub fn square(sample: i16) -> Squared
    ensures { (result ≡ squared_of sample) × (result.square ≤ 2 ^ 30) }
{
    let wide = i32::from(sample);
    Squared {
        square: (wide * wide) as u32,
        clipped: (sample == i16::MAX) | (sample == i16::MIN),
    }
}

// Two neighbours of every eight samples: the sum of the squares of both, and a mark for each.
#[derive(Clone, Copy)]
struct Pair {
    squares: u64,
    left: bool,
    right: bool,
}

impl Pair {
    // With two samples more.
    fn with_two(self, left: i16, right: i16) -> Pair
        requires { self.squares + 2 ^ 31 < 2 ^ 64 }
        ensures { (result ≡ pair_with self left right) × (result.squares ≤ self.squares + 2 ^ 31) }
    {
        let a = square(left);
        let b = square(right);
        Pair {
            squares: self.squares + u64::from(a.square + b.square),
            left: self.left | a.clipped,
            right: self.right | b.clipped,
        }
    }
}

// The part that samples are, given eight at a time, as processors multiply, add and compare eight in one step. The pairs are named and added from the last on: so
// the compiler leaves the samples in their order.
fn sum_eights(eights: &[[i16; 8]]) -> Part
    requires { length eights.now ≤ 32 }
    ensures { (result ≡ part_of (joined eights.now)) × (result.squares ≤ result.count * 2 ^ 30) }
{
    let none = Pair {
        squares: 0,
        left: false,
        right: false,
    };
    let mut fourth = none;
    let mut third = none;
    let mut second = none;
    let mut first = none;
    for eight in eights {
        first = first.with_two(eight[0], eight[1]);
        second = second.with_two(eight[2], eight[3]);
        third = third.with_two(eight[4], eight[5]);
        fourth = fourth.with_two(eight[6], eight[7]);
    }
    Part {
        count: 8 * eights.len() as u32,
        squares: fourth.squares + third.squares + second.squares + first.squares,
        clipped: (first.left | first.right)
            | (second.left | second.right)
            | (third.left | third.right)
            | (fourth.left | fourth.right),
    }
}

// The part that samples are, at most one half-cycle of them: eight at a time, and the rest one by one.
pub fn sum_squares(samples: &[i16]) -> Part
    requires { length samples.now ≤ 256 }
    ensures { (result ≡ part_of samples.now) × (result.squares ≤ result.count * 2 ^ 30) }
{
    let (eights, rest) = samples.as_chunks::<8>();
    let mut part = sum_eights(eights);
    for sample in rest {
        let one = square(*sample);
        part = Part {
            count: part.count + 1,
            squares: part.squares + u64::from(one.square),
            clipped: part.clipped | one.clipped,
        };
    }
    part
}

// The roots of the numbers below 256, sixteen in a row; as a byte string, since the layout has the numbers of a list one to a line.
const ROOTS: [u8; 256] = *b"\
    \x00\x01\x01\x01\x02\x02\x02\x02\x02\x03\x03\x03\x03\x03\x03\x03\
    \x04\x04\x04\x04\x04\x04\x04\x04\x04\x05\x05\x05\x05\x05\x05\x05\
    \x05\x05\x05\x05\x06\x06\x06\x06\x06\x06\x06\x06\x06\x06\x06\x06\
    \x06\x07\x07\x07\x07\x07\x07\x07\x07\x07\x07\x07\x07\x07\x07\x07\
    \x08\x08\x08\x08\x08\x08\x08\x08\x08\x08\x08\x08\x08\x08\x08\x08\
    \x08\x09\x09\x09\x09\x09\x09\x09\x09\x09\x09\x09\x09\x09\x09\x09\
    \x09\x09\x09\x09\x0a\x0a\x0a\x0a\x0a\x0a\x0a\x0a\x0a\x0a\x0a\x0a\
    \x0a\x0a\x0a\x0a\x0a\x0a\x0a\x0a\x0a\x0b\x0b\x0b\x0b\x0b\x0b\x0b\
    \x0b\x0b\x0b\x0b\x0b\x0b\x0b\x0b\x0b\x0b\x0b\x0b\x0b\x0b\x0b\x0b\
    \x0c\x0c\x0c\x0c\x0c\x0c\x0c\x0c\x0c\x0c\x0c\x0c\x0c\x0c\x0c\x0c\
    \x0c\x0c\x0c\x0c\x0c\x0c\x0c\x0c\x0c\x0d\x0d\x0d\x0d\x0d\x0d\x0d\
    \x0d\x0d\x0d\x0d\x0d\x0d\x0d\x0d\x0d\x0d\x0d\x0d\x0d\x0d\x0d\x0d\
    \x0d\x0d\x0d\x0d\x0e\x0e\x0e\x0e\x0e\x0e\x0e\x0e\x0e\x0e\x0e\x0e\
    \x0e\x0e\x0e\x0e\x0e\x0e\x0e\x0e\x0e\x0e\x0e\x0e\x0e\x0e\x0e\x0e\
    \x0e\x0f\x0f\x0f\x0f\x0f\x0f\x0f\x0f\x0f\x0f\x0f\x0f\x0f\x0f\x0f\
    \x0f\x0f\x0f\x0f\x0f\x0f\x0f\x0f\x0f\x0f\x0f\x0f\x0f\x0f\x0f\x0f";

// The root of a number from a table of roots.
fn from_table(n: u64, roots: &[u8; 256]) -> u64
    requires { (roots_from 0 roots.now ≡ true) × (n < 256) }
    ensures { result ≡ root_of n }
{
    u64::from(roots[n as usize])
}

// The root of a number from that of its quarter: twice that, or one more.
fn from_quarter(n: u64, quarter: u64) -> u64
    requires { quarter ≡ root_of (n / 4) }
    ensures { result ≡ root_of n }
{
    let even = 2 * quarter;
    let odd = even + 1;
    if odd * odd <= n { odd } else { even }
}

// The root of a number below 1,024: below 256 from the table, else from its quarter's root. It goes one quarter beyond the table so that it calls itself: else the
// compiler would inline it, and each of `root`'s frames would hold the table, which lies on the stack.
fn small_root(n: u64) -> u64
    requires { n < 1024 }
    ensures { result ≡ root_of n }
{
    if n < 256 {
        // A copy: the constant itself, if lent, would be laid on the stack at every call, also where it is not read.
        let roots = ROOTS;
        return from_table(n, &roots);
    }
    from_quarter(n, small_root(n / 4))
}

// The greatest number whose square is at most n: `near` where that is it already, else by `small_root` below 1,024, and from there on from the quarter's root,
// sought near half of `near`. `near` is it where n is at most 2 × near beyond its square; one comparison tells, as a difference that wraps is greater than that.
pub fn root(n: u64, near: u32) -> u64
    ensures { result ≡ root_of n }
{
    let wide = u64::from(near);
    if n.wrapping_sub(wide * wide) <= 2 * wide {
        return wide;
    }
    if n < 1024 {
        return small_root(n);
    }
    from_quarter(n, root(n / 4, near / 2))
}

// The RMS value of two neighbouring half-cycles with these sums of squares, in sixteenths of a count; it is sought near the value before.
pub fn rms_value(half_length: u32, first: u64, second: u64, near: u32) -> u32
    requires { (0 < half_length) × (half_length ≤ 256) × (first ≤ half_length * 2 ^ 30) × (second ≤ half_length * 2 ^ 30) }
    ensures { (result ≡ rms half_length first second) × (result ≤ 524288) }
{
    let mean_square = 256 * (first + second) / (2 * u64::from(half_length));
    root(mean_square, near) as u32
}

// A value in sixteenths of a count, and whether one of its samples is clipped.
#[derive(Clone, Copy)]
pub struct Marked {
    pub value: u32,
    pub clipped: bool,
}

// What is kept of the samples.
#[derive(Clone, Copy)]
pub struct Gatherer {
    // Of the half-cycle in progress: how many samples, and the sum of their squares.
    pub count: u32,
    pub sum: u64,
    // Of the last whole half-cycle: its sum, and whether there is one. Without one the sum is 0, and it is no `Option`: `gatherer_rule`, which any image must
    // meet, `gatherer_of` and `value_with` speak of each field by itself.
    pub last: u64,
    pub whole: bool,
    // Whether a sample of the half-cycle in progress is clipped, and of the last whole one.
    pub clipped: bool,
    pub last_clipped: bool,
}

// How many of the samples to come belong to the half-cycle in progress, and whether the last of them ends it. Both, and no `Option` of the count: `cut` of
// rms/specs gives both, and `CutLaws` speak of the count also where no half-cycle ends.
#[derive(Clone, Copy)]
pub struct Share {
    pub count: usize,
    pub completes: bool,
}

// What one sample more gives: the gatherer, and whether the sample ended a half-cycle.
#[derive(Clone, Copy)]
pub struct Gathered {
    pub gatherer: Gatherer,
    pub completed: bool,
}

impl Gatherer {
    pub fn new() -> Gatherer
        ensures { result ≡ no_sample }
    {
        Gatherer {
            count: 0,
            sum: 0,
            last: 0,
            whole: false,
            clipped: false,
            last_clipped: false,
        }
    }

    // The cut: the one place that decides where a half-cycle ends.
    #[tactic(auto, unfolding(crate::specs::Gather::cut))]
    pub fn cut(self, half_length: u32, samples: &[i16]) -> Share
        requires { self.count < half_length }
        ensures { result ≡ cut_of half_length self samples.now }
    {
        let missing = (half_length - self.count) as usize;
        Share {
            count: missing.min(samples.len()),
            completes: missing <= samples.len(),
        }
    }

    // With a part that leaves the half-cycle in progress.
    pub fn with_part(self, part: Part) -> Gatherer
        requires { (self.count + part.count < 2 ^ 32) × (self.sum + part.squares < 2 ^ 64) }
        ensures { result ≡ with_part self part }
    {
        Gatherer {
            count: self.count + part.count,
            sum: self.sum + part.squares,
            clipped: self.clipped | part.clipped,
            ..self
        }
    }

    // With the part that ends it: its sum and its mark are kept, and a new half-cycle begins.
    pub fn with_half(self, part: Part) -> Gatherer
        requires { self.sum + part.squares < 2 ^ 64 }
        ensures { result ≡ with_half self part }
    {
        Gatherer {
            last: self.sum + part.squares,
            whole: true,
            last_clipped: self.clipped | part.clipped,
            ..Gatherer::new()
        }
    }

    // With one sample more.
    pub fn with_sample(self, half_length: u32, sample: i16) -> Gathered
        requires { ValidGatherer half_length self × (half_length ≤ 256) }
        ensures { result ≡ gathered half_length self sample }
    {
        let samples = [sample];
        let share = self.cut(half_length, &samples);
        let part = sum_squares(&samples);
        if share.completes {
            return Gathered {
                gatherer: self.with_half(part),
                completed: true,
            };
        }
        Gathered {
            gatherer: self.with_part(part),
            completed: false,
        }
    }
}

// The gatherer is lent to a sample and updated. What comes back is whether the sample ended a half-cycle. Lent, over the step by value (`with_sample`), since the
// papers name the gatherer lent to a sample.
pub fn gather(gatherer: &mut Gatherer, half_length: u32, sample: i16) -> bool
    requires { ValidGatherer half_length gatherer.old × (half_length ≤ 256) }
    ensures { (gatherer.new ≡ (gathered half_length gatherer.old sample).gatherer)
        × (result ≡ (gathered half_length gatherer.old sample).completed) }
{
    let gathered = gatherer.with_sample(half_length, sample);
    *gatherer = gathered.gatherer;
    gathered.completed
}
