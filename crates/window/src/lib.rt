// The window of the last values and their marks, 120 places each, oldest first, with 0 in those not used yet.
#![tactic(auto)]

ghost use Rattle.std.specs.Prelude.{◌≡◌, ℕ, ◌-◌, ◌<◌, ◌≤◌, min, List, length, map, slice_index};
ghost use Rattle.numbers.specs.Notation.{all};
ghost use Rattle.reading.specs.Changes.{sum as sum_of};
ghost use Rattle.window.specs.Window.{pushed};
ghost use Rattle.window.specs.Range.{between, calm_with};
ghost use Rattle.window.specs.Places.{same_numbers};

// What a window keeps: a value or a clipping mark. `numbers` are those of a list of them.
pub trait Place: Copy {
    ghost number: { Self → ℕ };

    ghost numbers: { List Self → List ℕ };

    fn number(self) -> u32
        ensures { result ≡ number self };

    ghost one_by_one: { (places : List Self) → numbers places ≡ map number places };
}

impl Place for u32 {
    ghost number = { λ value. value };

    ghost numbers = { λ values. values };

    ghost one_by_one = { same_numbers };

    fn number(self) -> u32 {
        self
    }
}

impl Place for u8 {
    ghost number = { λ mark. mark };

    ghost numbers = { λ marks. marks };

    ghost one_by_one = { same_numbers };

    fn number(self) -> u32 {
        u32::from(self)
    }
}

// The value after `count` others joins the window, which keeps `window_length` of them. Here and below the length stands beside the window, and no struct holds
// both: it is the settings', one for a window, its marks and the windows of three channels. It is a plain number, whose bound each function says: each equation
// has it as a number, and a type of its own would put a field's name into each.
pub fn push<T: Copy>(window: &mut [T], window_length: usize, count: usize, value: T)
    requires { (0 < window_length) × (window_length ≤ length window.old) }
    ensures { window.new ≡ pushed window_length count window.old value }
{
    if count < window_length {
        window[count] = value;
    } else {
        window.copy_within(1..window_length, 0);
        window[window_length - 1] = value;
    }
}

// The sum of the window's values, and how many of them are clipped.
#[derive(Clone, Copy)]
pub struct Sums {
    pub values: u64,
    pub marks: u64,
}

// A mark joins the marks as its value joins the window, where `marked` of the window's values are clipped: mostly none is, and a mark of 0 among zeros moves nothing.
pub fn push_mark(marks: &mut [u8], window_length: usize, count: usize, marked: u64, mark: u8)
    requires { (0 < window_length) × (window_length ≤ length marks.old) × (marked ≡ sum_of marks.old) }
    ensures { marks.new ≡ pushed window_length count marks.old mark }
{
    if (marked == 0) & (mark == 0) {
        return;
    }
    push(marks, window_length, count, mark);
}

// The newest of `count` values, of which some may have left the window; its first place, which is 0 then, where there is none.
pub fn newest(window: &[u32], window_length: u64, count: u64) -> u32
    requires { (0 < window_length) × (window_length ≤ length window.now) }
    ensures { result ≡ slice_index window.now (min count window_length - 1) }
{
    window[count.min(window_length).saturating_sub(1) as usize]
}

// The sum of at most 120 values or marks.
pub fn sum_of<T: Place>(part: &[T]) -> u64
    requires { length part.now ≤ 120 }
    ensures { result ≡ sum_of (T.numbers part.now) }
{
    let mut sum: u64 = 0;
    for place in part {
        sum += u64::from(place.number());
    }
    sum
}

// Whether every value lies from `lowest` to `highest`. One comparison tells of a value: its distance from `lowest` wraps where it lies below, and is then
// greater than the width. All are tested, without a way out, so that the loop runs in lanes.
pub fn all_between(part: &[u32], lowest: u32, highest: u32) -> bool
    requires { lowest ≤ highest }
    ensures { result ≡ all (between lowest highest) part.now }
{
    let width = highest - lowest;
    let mut outside = false;
    for value in part {
        outside |= width < value.wrapping_sub(lowest);
    }
    !outside
}

// Whether a window, the newest value and those of `part`, is calm: each value, times the window's length, lies within `limit` of the window's sum. In a
// change the newest mostly decides. For the others the test is turned into a range of values once, so that none is multiplied.
pub fn calm(part: &[u32], newest: u32, window_length: u64, sum: u64, limit: u64) -> bool
    requires { (0 < window_length) × (window_length ≤ 120) × (sum ≤ 62914560) × (limit ≤ 62914560) }
    ensures { result ≡ calm_with window_length sum limit part.now newest }
{
    let scaled = window_length * u64::from(newest);
    if limit < scaled.abs_diff(sum) {
        return false;
    }
    let lowest = ((sum.saturating_sub(limit) + (window_length - 1)) / window_length) as u32;
    let highest = ((sum + limit) / window_length) as u32;
    all_between(part, lowest, highest)
}
