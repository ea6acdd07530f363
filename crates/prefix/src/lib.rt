// The prefix walk: "Prefix at p < m: D(p)." A scan of the bits of p's block before p, then the climb.
// Entries are read by `walk::read` alone, which counts them.
#![tactic(auto)]

ghost use Rattle.std.specs.Prelude.{◌≡◌, ◌-◌, ◌*◌, ◌<◌, ◌≤◌, length};
ghost use Rattle.word.specs.Bits.{bits};
ghost use Rattle.word.specs.Row.{word_of};
ghost use Rattle.summary.specs.Stretch.{depth_of};
ghost use Rattle.index.specs.Shape.{height};
ghost use Rattle.walk.specs.Walk.{told};
ghost use Rattle.walk.specs.Prefix.{prefix};

use walk::{Counted, Lineage, Walk};

// The depth at bit `to`, from bit `from`: "scanning bits doesn't" count.
fn depth_of(bytes: &[u8], from: usize, to: usize) -> i64
    requires { (from ≤ to) × (to ≤ 8 * length bytes.now) × (to ≤ 2097152) }
    ensures { result ≡ depth_of (bits bytes.now from (to - from)) }
{
    i64::from(table::stretch(bytes, from, to).total)
}

// "Climb from block p/256, reading k-1 at each odd entry above 1.": D(p), and the entries read.
pub fn prefix(lineage: &Lineage<'_>, p: usize) -> Counted<i64>
    requires { p < lineage.now.row.m }
    ensures { told result ≡ prefix (height lineage.now.row.m) (word_of lineage.now.row) p }
{
    let b = p / 256;
    // Here `want` is the depth gathered: that of p from the start of the entry.
    let mut w = Walk {
        entry: lineage.l + b,
        want: depth_of(lineage.row.bytes, 256 * b, p),
        reads: 0,
    };
    while w.entry > 1 {
        w = w.more(w.entry / 2, walk::before(lineage.index, w.entry, w.reads));
    }
    Counted {
        value: w.want,
        reads: w.reads,
    }
}
