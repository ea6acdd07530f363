// What the walks share: what they go over and what they give, the state of those that look for a boundary with its steps, the reading of an
// entry and the test of one, and the walk past its first block, whichever way it goes.
// An entry is read, and the read counted, in one place: `read`.
#![tactic(auto)]

ghost use Rattle.std.specs.Prelude.{◌≡◌, false, cond, ◌+◌, ◌*◌, ◌/◌, ◌<◌, ◌≤◌, min, length, pos, nat_abs, ◌+ℤ◌, ◌-ℤ◌};
ghost use Rattle.std.specs.Int.Signed.{le_z};
ghost use Rattle.word.specs.Signed.{eq_z};
ghost use Rattle.summary.specs.Join.{empty_of};
ghost use Rattle.index.specs.Lent.{entry_at};
ghost use Rattle.walk.specs.Walk.{said, walk, seen, hit};
ghost use Rattle.walk.specs.Scan.{reached};
ghost use Rattle.walk.specs.Beside.{after_of, before_of};

pub use lineage::Lineage;
use summary::Summary;
pub use summary::step;
pub use way::{Way, onward};

mod lineage;
mod way;

// What was found or worked out, and how many entries were read for it.
#[derive(Clone, Copy)]
pub struct Counted<T> {
    pub value: T,
    pub reads: u32,
}

// "the walk's state (entry, amount wanted, reads)"
#[derive(Clone, Copy)]
pub struct Walk {
    pub entry: usize,
    pub want: i64,
    pub reads: u32,
}

// A climb ends at an entry to go down into, or at entry 1. It is no `ControlFlow`, as one step of it is: the definitions of both walks name
// these two ends, and `landed` and `landed_back` go on from each.
#[derive(Clone, Copy)]
pub enum Climb {
    Enter(Walk),
    Top(Walk),
}

// "Only reading an index entry counts": entry k, and one read more. The bounds of reads and of amounts wanted, here and below, keep each
// sum in its type: a type for either would be opened at each sum. Index, entry and reads stay three for the same reason.
pub fn read(index: &[i32], k: usize, reads: u32) -> Counted<Summary>
    requires { (4 * k + 3 < length index.now) × (reads ≤ 1073741824) }
    ensures { result ≡ seen (entry_at index.now k) (reads + 1) }
{
    Counted {
        value: index::read(index, k),
        reads: reads + 1,
    }
}

// Where the rule reads no entry: nothing was seen. The empty summary stands for it, and no `Option`, since joining it and adding its total
// change nothing.
fn unread(reads: u32) -> Counted<Summary>
    ensures { result ≡ seen empty_of reads }
{
    Counted {
        value: summary::empty(),
        reads,
    }
}

// The entry on the side to which a climb goes. `after` and `before` stay two: each reads at its own entries, on its own side, by a rule
// of its own.
// "at an even entry k read k+1"
pub fn after(index: &[i32], k: usize, reads: u32) -> Counted<Summary>
    requires { (8 * (k / 2) + 7 < length index.now) × (reads ≤ 1073741824) }
    ensures { result ≡ after_of (entry_at index.now) k reads }
{
    if k % 2 == 0 {
        read(index, k + 1, reads)
    } else {
        unread(reads)
    }
}

// "at an odd entry read k-1"
pub fn before(index: &[i32], k: usize, reads: u32) -> Counted<Summary>
    requires { (4 * k ≤ length index.now) × (reads ≤ 1073741824) }
    ensures { result ≡ before_of (entry_at index.now) k reads }
{
    if k % 2 == 1 {
        read(index, k - 1, reads)
    } else {
        unread(reads)
    }
}

// An entry's number beside an amount wanted, which has more bits.
pub fn wide(x: i32) -> i64
    ensures { result ≡ x }
{
    i64::from(x)
}

#[tactic(auto, using(crate::proofs::Machine::none_wanted))]
pub fn zero(x: i64) -> bool
    ensures { result ≡ eq_z x (pos 0) }
{
    x == 0
}

// The amount wanted, less a total.
pub fn minus(want: i64, total: i32) -> i64
    requires { nat_abs want ≤ 2305843009213693952 }
    ensures { result ≡ want -ℤ total }
{
    want - wide(total)
}

// The amount wanted, and a total more.
pub fn plus(want: i64, total: i32) -> i64
    requires { nat_abs want ≤ 2305843009213693952 }
    ensures { result ≡ want +ℤ total }
{
    want + wide(total)
}

// "if its count isn't 0 and least ≤ t ≤ greatest"
pub fn holds(s: Summary, want: i64) -> bool
    ensures { result ≡ hit s want }
{
    if s.count == 0 {
        return false;
    }
    i64::from(s.least) <= want && want <= i64::from(s.greatest)
}

impl Walk {
    // To entry k, with the same amount wanted.
    pub fn enter(self, k: usize, seen: Counted<Summary>) -> Walk
        ensures { result ≡ walk k self.want seen.reads }
    {
        Walk {
            entry: k,
            want: self.want,
            reads: seen.reads,
        }
    }

    // `less` and `more` stay two, as the rules are: a sign handed in would say less than either name.
    // To entry k: "take its total off t".
    pub fn less(self, k: usize, seen: Counted<Summary>) -> Walk
        requires { nat_abs self.want ≤ 2305843009213693952 }
        ensures { result ≡ walk k (self.want -ℤ seen.value.total) seen.reads }
    {
        Walk {
            entry: k,
            want: minus(self.want, seen.value.total),
            reads: seen.reads,
        }
    }

    // To entry k: "add its total to t".
    pub fn more(self, k: usize, seen: Counted<Summary>) -> Walk
        requires { nat_abs self.want ≤ 2305843009213693952 }
        ensures { result ≡ walk k (self.want +ℤ seen.value.total) seen.reads }
    {
        Walk {
            entry: k,
            want: plus(self.want, seen.value.total),
            reads: seen.reads,
        }
    }
}

// What a scan met, if anything, and the reads.
pub fn met(scanned: Result<usize, i64>, reads: u32) -> Counted<Option<usize>>
    ensures { said result ≡ (reached scanned, reads) }
{
    Counted {
        value: scanned.ok(),
        reads,
    }
}

// The end of block b, or of the word.
pub fn end_of(m: usize, b: usize) -> usize
    requires { b ≤ 1073741824 }
    ensures { result ≡ min (256 * (b + 1)) m }
{
    m.min(256 * (b + 1))
}
