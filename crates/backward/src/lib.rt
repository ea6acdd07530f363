// The backward walk: "Backward from p by t: the last q < p with D(q) = D(p)+t."
// A scan down, a climb, a way down by right children first, and a second scan down. Entries are read by `walk::read` alone.
#![tactic(auto)]

ghost use Rattle.std.specs.Prelude.{◌≡◌, ◌-◌, ◌*◌, ◌≤◌, length, nat_abs};
ghost use Rattle.word.specs.Row.{word_of};
ghost use Rattle.index.specs.Shape.{height};
ghost use Rattle.walk.specs.Walk.{said};
ghost use Rattle.walk.specs.Backward.{hit_back, leaf_back, landed_back, backward};
ghost use Rattle.backward.specs.Steps.{scan_down, climb_of, descent_of, back_laws};

use std::ops::ControlFlow;
use summary::Summary;
use walk::{Counted, Lineage, Walk, Way};

// The last boundary after `from`, up to `to`, whose depth from `to` is what is wanted; or the amount wanted from `from`.
fn scan_down(bytes: &[u8], from: usize, to: usize, want: i64) -> Result<usize, i64>
    requires { (to ≤ 8 * length bytes.now) × (to ≤ 2097152) × (nat_abs want ≤ 1152921504606846976) }
    ensures { result ≡ scan_down bytes.now from (to - from) want }
{
    let mut t = want;
    for i in (from..to).rev() {
        if t == 0 {
            return Ok(i + 1);
        }
        t += i64::from(walk::step(word::opens(bytes, i)));
    }
    Err(t)
}

// "enter it if least ≤ t+total ≤ greatest"
fn ends_well(s: Summary, want: i64) -> bool
    requires { nat_abs want ≤ 2305843009213693952 }
    ensures { result ≡ hit_back s want }
{
    let u = walk::plus(want, s.total);
    walk::holds(s, u)
}

// The way backward.
pub struct Back;

impl Way for Back {
    ghost climb_of = { climb_of };

    ghost descent_of = { descent_of };

    ghost leaf_of = { leaf_back };

    ghost landed_of = { landed_back };

    ghost laws = { back_laws };

    // "at an odd entry read k-1; enter it if least ≤ t+total ≤ greatest, else add its total to t."
    fn up(lineage: &Lineage<'_>, w: Walk) -> ControlFlow<Walk, Walk> {
        let s = walk::before(lineage.index, w.entry, w.reads);
        if ends_well(s.value, w.want) {
            ControlFlow::Break(w.enter(w.entry - 1, s))
        } else {
            ControlFlow::Continue(w.more(w.entry / 2, s))
        }
    }

    // "Going down, read the right child first, by the same rule.": into it, or past it into the left one, unread.
    fn down(lineage: &Lineage<'_>, w: Walk) -> Walk {
        let right = walk::read(lineage.index, 2 * w.entry + 1, w.reads);
        if ends_well(right.value, w.want) {
            w.enter(2 * w.entry + 1, right)
        } else {
            w.more(2 * w.entry, right)
        }
    }

    // The scan of the leaf reached, from its end boundary down.
    fn leaf(lineage: &Lineage<'_>, w: Walk) -> Counted<Option<usize>> {
        let row = lineage.row;
        let b = w.entry - lineage.l;
        let s = scan_down(row.bytes, 256 * b, walk::end_of(row.m, b), w.want);
        walk::met(s, w.reads)
    }

    // "At entry 1 the answer is boundary 0 if t is 0, else none."
    fn top(w: Walk) -> Counted<Option<usize>> {
        Counted {
            value: if walk::zero(w.want) { Some(0) } else { None },
            reads: w.reads,
        }
    }
}

// The last boundary before `p` whose depth is that of `p` and `want` more, and how many entries were read. The first block is each way's
// own, as its scan is.
pub fn backward(lineage: &Lineage<'_>, p: usize, want: i64) -> Counted<Option<usize>>
    requires { (p ≤ lineage.now.row.m) × (nat_abs want ≤ 8589934592) }
    ensures { said result ≡ backward (height lineage.now.row.m) (word_of lineage.now.row) p want }
{
    if p == 0 {
        return Counted {
            value: None,
            reads: 0,
        };
    }
    let bytes = lineage.row.bytes;
    let last = p - 1;
    let b = last / 256;
    let t = want + i64::from(walk::step(word::opens(bytes, last)));
    match scan_down(bytes, 256 * b, last, t) {
        Ok(q) => Counted {
            value: Some(q),
            reads: 0,
        },
        Err(u) => {
            let w = Walk {
                entry: lineage.l + b,
                want: u,
                reads: 0,
            };
            walk::onward::<Back>(lineage, w)
        }
    }
}
