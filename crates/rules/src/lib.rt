// Refusal 11 in code: whether the numbers of an image's bodies keep the rules. Each test answers what the rule's own test answers.
#![tactic(auto)]

ghost use Rattle.std.specs.Prelude.{◌≡◌, not, ◌&&◌, ◌||◌, ◌∷◌, ◌++◌, ◌+◌, ◌≤◌, min, length};
ghost use Rattle.numbers.specs.Notation.{◌≤ᵇ◌, ◌<ᵇ◌, ◌≡ᵇ◌, flag};
ghost use Rattle.numbers.specs.Rules.{passes};
ghost use Rattle.numbers.specs.Rules.Rule.{◌≡ʳ◌, ◌and◌, all_up_to, all_zero};
ghost use Rattle.reading.specs.Restore.{value_most, gatherer_rule, whole_rule, places_rule, values_rule, stand_rule, change_rule, phase_rule};
ghost use Rattle.reading.specs.Restore.{standing_rule, events_rule};

use reading::LAST_VALUE;
use window::Place;

// The greatest square of a sample.
const SQUARE_MOST: u64 = 1 << 30;

// The greatest value.
const VALUE_MOST: u64 = 524_288;

// A number is 0 where what it tells of is not there.
fn zero_where(absent: bool, number: u64) -> bool
    ensures { result ≡ (not absent || number ≡ᵇ 0) }
{
    !absent || number == 0
}

// A clipping mark: 0 or 1, and 0 where what it marks is not there.
fn mark_good(absent: bool, mark: u64) -> bool
    ensures { result ≡ (mark ≤ᵇ 1 && (not absent || mark ≡ᵇ 0)) }
{
    mark <= 1 && zero_where(absent, mark)
}

// Body 2.
pub fn gatherer_good(samples: u32, numbers: &[u64; 6]) -> bool
    ensures { result ≡ passes (gatherer_rule samples numbers.now) }
{
    let most = u64::from(samples);
    let [count, sum, last, whole, mark, last_mark] = *numbers;
    count < most
        && sum <= count * SQUARE_MOST
        && last <= most * SQUARE_MOST
        && whole <= 1
        && zero_where(whole == 0, last)
        && mark_good(count == 0, mark)
        && mark_good(whole == 0, last_mark)
}

// Body 3.
// Whether every place is at most a bound. All are tested, without a way out, so that the loop runs in lanes.
fn all_up_to<T: Place>(places: &[T], most: u32) -> bool
    ensures { result ≡ passes (all_up_to most (T.numbers places.now)) }
{
    let mut above = false;
    for place in places {
        above |= most < place.number();
    }
    !above
}

// Values or marks, up to a bound, with 0 in the places that are not used yet. Here and below the window's length is a plain number, and each function says that
// it is at most 120: each rule has it as a number, and a type of its own would put a field's name into each.
fn places_good<T: Place>(places: &[T; 120], most: u32, count: u64, window_length: u64) -> bool
    requires { window_length ≤ 120 }
    ensures { result ≡ passes (places_rule most window_length count (T.numbers places.now)) }
{
    let first_unused = count.min(window_length) as usize;
    let places = &places[..];
    all_up_to(places, most) && all_up_to(&places[first_unused..], 0)
}

// Without a whole half-cycle there is no value.
fn whole_good(whole: bool, count: u64) -> bool
    ensures { result ≡ passes (whole_rule (flag whole) count) }
{
    whole || count == 0
}

pub fn values_good(
    window: &[u32; 120],
    marks: &[u8; 120],
    count: u64,
    window_length: u64,
    whole: bool,
) -> bool
    requires { window_length ≤ 120 }
    ensures { result ≡ passes (values_rule window_length (flag whole) (count ∷ (window.now ++ marks.now))) }
{
    count <= LAST_VALUE
        && whole_good(whole, count)
        && places_good(window, VALUE_MOST as u32, count, window_length)
        && places_good(marks, 1, count, window_length)
}

// Body 4.
// Whether V < k + N. The start is at most `count`, so that no sum is needed, which could wrap.
fn is_early(start: u64, window_length: u64, count: u64) -> bool
    requires { start ≤ count }
    ensures { result ≡ (count <ᵇ start + window_length) }
{
    count - start < window_length
}

// Whether the stand that is kept is 0, or from k to V.
fn stand_good(start: u64, stand: u64, count: u64) -> bool
    ensures { result ≡ passes (stand_rule count start stand) }
{
    stand == 0 || start <= stand && stand <= count
}

fn change_good(numbers: &[u64; 4], mark: u64, window_length: u64, count: u64) -> bool
    requires { window_length ≤ 120 }
    ensures { result ≡ passes (change_rule window_length count numbers.now mark) }
{
    let [start, sum, difference, stand] = *numbers;
    if start <= window_length || count < start {
        return false;
    }
    let early = is_early(start, window_length, count);
    sum <= window_length * VALUE_MOST
        && difference <= window_length * VALUE_MOST
        && zero_where(early, difference)
        && stand_good(start, stand, count)
        && mark_good(early, mark)
}

fn change_zero(numbers: &[u64; 4], mark: u64) -> bool
    ensures { result ≡ passes (all_zero numbers.now and mark ≡ʳ 0) }
{
    *numbers == [0; 4] && mark == 0
}

fn phase_good(numbers: &[u64; 15], mark: u64, window_length: u64, count: u64) -> bool
    requires { window_length ≤ 120 }
    ensures { result ≡ passes (phase_rule window_length count numbers.now mark) }
{
    let [phase, start, sum, difference, stand, ..] = *numbers;
    let change = [start, sum, difference, stand];
    match phase {
        0 => count < window_length && change_zero(&change, mark),
        1 | 2 => window_length <= count && change_zero(&change, mark),
        3 => window_length <= count && change_good(&change, mark, window_length, count),
        _ => false,
    }
}

fn standing_good(start: u64, magnitude: u64, mark: u64, count: u64) -> bool
    ensures { result ≡ passes (standing_rule count start magnitude mark) }
{
    start <= count
        && magnitude <= VALUE_MOST
        && zero_where(start == 0, magnitude)
        && mark_good(start == 0, mark)
}

// By place, as the rule: a pattern of fifteen names would take a line for each.
pub fn events_good(numbers: &[u64; 15], window_length: u64, count: u64) -> bool
    requires { window_length ≤ 120 }
    ensures { result ≡ passes (events_rule window_length count numbers.now) }
{
    phase_good(numbers, numbers[14], window_length, count)
        && standing_good(numbers[5], numbers[6], numbers[11], count)
        && standing_good(numbers[7], numbers[8], numbers[12], count)
        && standing_good(numbers[9], numbers[10], numbers[13], count)
}
