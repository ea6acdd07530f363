// The ways to go along the row, forward and backward: one walk for both, past the block where it starts.
ghost use Rattle.std.specs.Prelude.{◌≡◌, ◌≢◌, Bool, List, ℕ, ◌*◌, ◌≤◌, ◌<◌, nat_abs};
ghost use Rattle.word.specs.Row.{word_of};
ghost use Rattle.summary.specs.declared.Summary.{Summary};
ghost use Rattle.index.specs.Shape.{height};
ghost use Rattle.walk.specs.declared.Walk.{Walk};
ghost use Rattle.walk.specs.declared.Climb.{Climb};
ghost use Rattle.walk.specs.declared.Climb.TheVariants.{Top};
ghost use Rattle.walk.specs.Walk.{Reach, said};
ghost use Rattle.walk.specs.Room.{Ready, Steady, Footing, Climbed, Hold, Sunk};
ghost use Rattle.walk.specs.Way.{entries, Step, Down, beyond, WayLaws};

use crate::{Climb, Counted, Lineage, Walk};
use std::ops::ControlFlow;

// What a walk does at each entry.
pub trait Way {
    // What the definitions give, by whatever reads an entry: the climb and the way down, in so many steps,
    // the scan of the leaf reached, and all that follows a climb.
    ghost climb_of: { (ℕ → Summary) → ℕ → Walk → Climb };

    ghost descent_of: { (ℕ → Summary) → ℕ → ℕ → Walk → Walk };

    ghost leaf_of: { ℕ → List Bool → Walk → Reach };

    ghost landed_of: { ℕ → List Bool → Climb → Reach };

    ghost laws: { WayLaws climb_of descent_of leaf_of landed_of };

    // One step of the climb: on to the entry above, or out of it to go down into the entry beside.
    fn up(lineage: &Lineage<'_>, w: Walk) -> ControlFlow<Walk, Walk>
        requires { (1 < w.entry) × (w.entry < 2 * lineage.now.l) × Steady w }
        ensures { Step (climb_of (entries lineage.now.row)) w result };

    // One step down, into a child.
    fn down(lineage: &Lineage<'_>, w: Walk) -> Walk
        requires { (w.entry < lineage.now.l) × Steady w }
        ensures { Down (descent_of (entries lineage.now.row) lineage.now.l) w result };

    // The scan of the leaf reached. Each way has its own, since each scans from its own end: to share the few lines around the scan would
    // take one definition more, and a law to tie it to `leaf_of`.
    fn leaf(lineage: &Lineage<'_>, w: Walk) -> Counted<Option<usize>>
        requires { (lineage.now.l ≤ w.entry) × (w.entry ≤ 16384) × (nat_abs w.want ≤ 1152921504606846976) }
        ensures { said result ≡ leaf_of lineage.now.l (word_of lineage.now.row) w };

    // The answer at entry 1.
    fn top(w: Walk) -> Counted<Option<usize>>
        ensures { (h : ℕ) (x : List Bool) → said result ≡ landed_of h x (Top w) };
}

// The climb: a loop that breaks with the entry to go down into, or at entry 1.
fn climb<W: Way>(lineage: &Lineage<'_>, start: Walk) -> Climb
    requires { Footing lineage.now.l start }
    ensures { Climbed (W.climb_of (entries lineage.now.row)) start result }
{
    let mut w = start;
    loop {
        if w.entry == 1 {
            break Climb::Top(w);
        }
        match W::up(lineage, w) {
            ControlFlow::Continue(next) => w = next,
            ControlFlow::Break(beside) => break Climb::Enter(beside),
        }
    }
}

// The way down, as far as a leaf.
fn descend<W: Way>(lineage: &Lineage<'_>, start: Walk) -> Walk
    requires { Hold lineage.now.l start }
    ensures { Sunk (W.descent_of (entries lineage.now.row) lineage.now.l) lineage.now.l start result }
{
    let mut w = start;
    while w.entry < lineage.l {
        w = W::down(lineage, w);
    }
    w
}

// Past the first block: the climb, then entry 1, or the way down and the scan of the leaf reached.
pub fn onward<W: Way>(lineage: &Lineage<'_>, start: Walk) -> Counted<Option<usize>>
    requires { Ready lineage.now.l start }
    ensures { said result ≡ beyond W.climb_of W.landed_of lineage.now.row start }
{
    match climb::<W>(lineage, start) {
        Climb::Top(v) => W::top(v),
        Climb::Enter(v) => {
            let w = descend::<W>(lineage, v);
            W::leaf(lineage, w)
        }
    }
}
