// The summary of a stretch of bits, four numbers by value, and how two neighbouring stretches join.
#![tactic(auto)]

ghost use Rattle.std.specs.Prelude.{◌≡◌};
ghost use Rattle.summary.specs.Join.{at, joined, join_of, empty_of};
ghost use Rattle.summary.specs.Bound.{Bounded};
ghost use Rattle.summary.specs.Four.{four, of_four};
ghost use Rattle.summary.specs.Stretch.{step};

// Depths are counted from the stretch's start, over the boundaries after it.
#[derive(Clone, Copy, PartialEq, Eq)]
pub struct Summary {
    pub total: i32,
    pub least: i32,
    pub greatest: i32,
    pub count: i32,
}

// A side's count, where that side reaches the joined least.
fn counted(side: i32, least: i32, count: i32) -> i32
    ensures { result ≡ at side least count }
{
    if side == least { count } else { 0 }
}

// Two stretches of which neither is empty, x before y.
fn both(x: Summary, y: Summary) -> Summary
    requires { Bounded 4194304 x × Bounded 4194304 y }
    ensures { result ≡ joined x y }
{
    let low = x.total + y.least;
    let high = x.total + y.greatest;
    let least = x.least.min(low);
    let here = counted(x.least, least, x.count);
    let there = counted(low, least, y.count);
    Summary {
        total: x.total + y.total,
        least,
        greatest: x.greatest.max(high),
        count: here + there,
    }
}

impl Summary {
    // "An empty stretch has 0, 0, 0, 0."
    pub const EMPTY: Summary = Summary {
        total: 0,
        least: 0,
        greatest: 0,
        count: 0,
    };

    // `self` stands before `other`. The bound is twice the longest word's length, and keeps every sum from wrapping.
    // An empty stretch is told by its count, not by an `Option`: its four numbers lie in the index, as 0, 0, 0, 0.
    pub fn join(self, other: Summary) -> Summary
        requires { Bounded 4194304 self × Bounded 4194304 other }
        ensures { result ≡ join_of self other }
    {
        if self.count == 0 {
            return other;
        }
        if other.count == 0 {
            return self;
        }
        both(self, other)
    }
}

// The four numbers, in the order in which a row of the byte table and an index entry hold them.
impl From<[i32; 4]> for Summary {
    ghost from_gives = { λ numbers s. s ≡ of_four numbers };

    fn from([total, least, greatest, count]: [i32; 4]) -> Summary {
        Summary {
            total,
            least,
            greatest,
            count,
        }
    }
}

impl From<Summary> for [i32; 4] {
    ghost from_gives = { λ s numbers. numbers ≡ four s };

    fn from(s: Summary) -> [i32; 4] {
        [s.total, s.least, s.greatest, s.count]
    }
}

// A bit's step: an opening goes one up, a closing one down.
pub fn step(opens: bool) -> i32
    ensures { result ≡ step opens }
{
    if opens { 1 } else { -1 }
}

// EMPTY, by a call that promises the rule's four zeros, for whoever calls it from outside.
pub fn empty() -> Summary
    ensures { result ≡ empty_of }
{
    Summary::EMPTY
}
