// The tests of an interval (document 01: a window), and its four numbers in a row. Code above asks these, and does not
// take an interval apart.
#![tactic(auto)]

ghost use Rattle.std.specs.Prelude.{◌≡◌, ◌+◌, ◌≤◌, length};
ghost use Rattle.logic.specs.Interval.{contains as contains_of, covers as covers_of, has as has_of, same_interval};
ghost use Rattle.logic.specs.Interval.{reversed as reversed_of, broken as broken_of, no_interval};
ghost use Rattle.intervals.specs.Numbers.{interval_at, put_interval};

use logic::Interval;

// I ⊇ J: I covers what J has before its break and what it has after it.
pub fn contains(i: Interval, j: Interval) -> bool
    ensures { result ≡ contains_of i j }
{
    let from = j.from as u64;
    let end = j.to as u64 + 1;
    let unbroken = j.last == 0;
    if unbroken {
        return covers(i, from, end);
    }
    let before = end.min(j.first as u64);
    let after = from.max(j.last as u64 + 1);
    covers(i, from, before) & covers(i, after, end)
}

// The interval has all minutes from p to before q. As a u64, to + 1 cannot overflow.
fn covers(i: Interval, p: u64, q: u64) -> bool
    ensures { result ≡ covers_of i p q }
{
    (q <= p)
        | ((i.from as u64 <= p)
            & ((q <= i.to as u64 + 1)
                & ((i.last == 0)
                    | ((i.last < i.first) | (((i.last as u64) < p) | (q <= i.first as u64))))))
}

// The interval has the minute: it lies between the ends and not in the break.
pub fn has(i: Interval, minute: u32) -> bool
    ensures { result ≡ has_of i minute }
{
    ((i.from <= minute) & (minute <= i.to))
        & !((0 < i.last) & ((i.first <= minute) & (minute <= i.last)))
}

// The interval is reversed (refusal 3).
pub fn reversed(i: Interval) -> bool
    ensures { result ≡ reversed_of i }
{
    i.to < i.from
}

// Its break is neither 0,0 nor strictly inside (refusal 43).
pub fn broken(i: Interval) -> bool
    ensures { result ≡ broken_of i }
{
    !(((i.first == 0) & (i.last == 0))
        | ((i.from < i.first) & ((i.first <= i.last) & (i.last < i.to))))
}

// What stands where there is no interval.
pub fn none() -> Interval
    ensures { result ≡ no_interval }
{
    Interval {
        from: 0,
        to: 0,
        first: 0,
        last: 0,
    }
}

// Both are the same interval.
pub fn same(i: Interval, j: Interval) -> bool
    ensures { result ≡ same_interval i j }
{
    i == j
}

// The interval whose four numbers stand from a place on: its ends, then those of its break.
pub fn read(numbers: &[u32], at: usize) -> Interval
    requires { (at + 4) ≤ length numbers.now }
    ensures { result ≡ interval_at numbers.now at }
{
    Interval {
        from: numbers[at],
        to: numbers[at + 1],
        first: numbers[at + 2],
        last: numbers[at + 3],
    }
}

pub fn put(numbers: &mut [u32], at: usize, v: Interval)
    requires { (at + 4) ≤ length numbers.old }
    ensures { numbers.new ≡ put_interval numbers.old at v }
{
    numbers[at] = v.from;
    numbers[at + 1] = v.to;
    numbers[at + 2] = v.first;
    numbers[at + 3] = v.last;
}
