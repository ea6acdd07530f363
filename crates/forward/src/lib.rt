// The forward walk: from boundary p by t, the first q > p with D(q) = D(p)+t, and how many entries were read.
// It scans the block where it starts, climbs, goes down, and scans the leaf that it reaches: no bit of any other block.
#![tactic(auto)]

ghost use Rattle.std.specs.Prelude.{◌≡◌, ◌-◌, ◌*◌, ◌<◌, ◌≤◌, length, nat_abs};
ghost use Rattle.word.specs.Row.{word_of};
ghost use Rattle.index.specs.Shape.{height};
ghost use Rattle.walk.specs.Walk.{said};
ghost use Rattle.walk.specs.Forward.{leaf_scan, landed, forward};
ghost use Rattle.forward.specs.Steps.{scan_of, climb_of, descent_of, ahead_laws};

use std::ops::ControlFlow;
use walk::{Counted, Lineage, Walk, Way};

// The first boundary after `from`, up to `to`, whose depth from `from` is what is wanted; or the amount still wanted. It tests after each
// bit, going up; the backward scan tests before each, going down: the two stay two.
fn scan(bytes: &[u8], from: usize, to: usize, want: i64) -> Result<usize, i64>
    requires { (to ≤ 8 * length bytes.now) × (to ≤ 4194304) × (nat_abs want ≤ 1152921504606846976) }
    ensures { result ≡ scan_of bytes.now from (to - from) want }
{
    let mut t = want;
    for i in from..to {
        t -= i64::from(walk::step(word::opens(bytes, i)));
        if t == 0 {
            return Ok(i + 1);
        }
    }
    Err(t)
}

// The way forward.
pub struct Ahead;

impl Way for Ahead {
    ghost climb_of = { climb_of };

    ghost descent_of = { descent_of };

    ghost leaf_of = { leaf_scan };

    ghost landed_of = { landed };

    ghost laws = { ahead_laws };

    // "at an even entry k read k+1; if its count isn't 0 and least ≤ t ≤ greatest, go down into it, else take its total off t;
    // then halve k."
    fn up(lineage: &Lineage<'_>, w: Walk) -> ControlFlow<Walk, Walk> {
        let s = walk::after(lineage.index, w.entry, w.reads);
        if walk::holds(s.value, w.want) {
            ControlFlow::Break(w.enter(w.entry + 1, s))
        } else {
            ControlFlow::Continue(w.less(w.entry / 2, s))
        }
    }

    // "Going down, read the left child; enter it on the same test, else take its total off t and enter the right one unread."
    fn down(lineage: &Lineage<'_>, w: Walk) -> Walk {
        let left = walk::read(lineage.index, 2 * w.entry, w.reads);
        if walk::holds(left.value, w.want) {
            w.enter(2 * w.entry, left)
        } else {
            w.less(2 * w.entry + 1, left)
        }
    }

    // "Scan the leaf reached."
    fn leaf(lineage: &Lineage<'_>, w: Walk) -> Counted<Option<usize>> {
        let row = lineage.row;
        let b = w.entry - lineage.l;
        let s = scan(row.bytes, 256 * b, walk::end_of(row.m, b), w.want);
        walk::met(s, w.reads)
    }

    // "At entry 1 there is none."
    fn top(w: Walk) -> Counted<Option<usize>> {
        Counted {
            value: None,
            reads: w.reads,
        }
    }
}

// "Scan to the end of block p/256. Failing that, let t be the amount still wanted from there. Climb from that leaf": the first block is
// each way's own, as its scan is.
pub fn forward(lineage: &Lineage<'_>, p: usize, want: i64) -> Counted<Option<usize>>
    requires { (p < lineage.now.row.m) × (nat_abs want ≤ 8589934592) }
    ensures { said result ≡ forward (height lineage.now.row.m) (word_of lineage.now.row) p want }
{
    let row = lineage.row;
    let b = p / 256;
    match scan(row.bytes, p, walk::end_of(row.m, b), want) {
        Ok(q) => Counted {
            value: Some(q),
            reads: 0,
        },
        Err(t) => {
            let w = Walk {
                entry: lineage.l + b,
                want: t,
                reads: 0,
            };
            walk::onward::<Ahead>(lineage, w)
        }
    }
}
