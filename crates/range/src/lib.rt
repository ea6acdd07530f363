// The range walk: "Range of boundaries a+1 to b, a < b: the summary of bits a up to b." The ends are scanned, what lies between is joined
// level by level. Entries are read by `walk::read` alone, which counts them.
#![tactic(auto)]

ghost use Rattle.std.specs.Prelude.{◌≡◌, ◌<◌, ◌≤◌};
ghost use Rattle.word.specs.Row.{word_of};
ghost use Rattle.index.specs.Shape.{height};
ghost use Rattle.index.specs.Lent.{entry_at};
ghost use Rattle.walk.specs.Walk.{told};
ghost use Rattle.walk.specs.Range.{range};
ghost use Rattle.range.specs.Span.{Joins, joined};

use summary::Summary;
use walk::{Counted, Lineage};

// The climb's state: the entries k and r, between which nothing is joined yet, what is joined on either side, and the reads.
#[derive(Clone, Copy)]
pub struct Span {
    pub k: usize,
    pub r: usize,
    pub left: Summary,
    pub right: Summary,
    pub reads: u32,
}

impl Span {
    // "read k+1 if k is even and r-1 if r is odd": what was read is joined to its side, "then halve both". Where nothing was read, the
    // empty summary changes nothing.
    fn up(self, index: &[i32]) -> Span
        requires { Joins index.now self }
        ensures { result ≡ joined (entry_at index.now) self }
    {
        let s = walk::after(index, self.k, self.reads);
        let t = walk::before(index, self.r, s.reads);
        Span {
            k: self.k / 2,
            r: self.r / 2,
            left: self.left.join(s.value),
            right: t.value.join(self.right),
            reads: t.reads,
        }
    }
}

// "Within one block, scan. Else scan the ends; from leaves k (block a/256) and r (block (b-1)/256), while k/2 ≠ r/2": the summary of the
// bits between two boundaries, and the entries read.
pub fn range(lineage: &Lineage<'_>, a: usize, b: usize) -> Counted<Summary>
    requires { (a < b) × (b ≤ lineage.now.row.m) }
    ensures { told result ≡ range (height lineage.now.row.m) (word_of lineage.now.row) a b }
{
    let bytes = lineage.row.bytes;
    let i = a / 256;
    let j = (b - 1) / 256;
    if i == j {
        return Counted {
            value: table::stretch(bytes, a, b),
            reads: 0,
        };
    }
    let mut v = Span {
        k: lineage.l + i,
        r: lineage.l + j,
        left: table::stretch(bytes, a, 256 * (i + 1)),
        right: table::stretch(bytes, 256 * j, b),
        reads: 0,
    };
    while v.k / 2 != v.r / 2 {
        v = v.up(lineage.index);
    }
    Counted {
        value: v.left.join(v.right),
        reads: v.reads,
    }
}
