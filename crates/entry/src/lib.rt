// One entry of the index, worked out: from the word where it is a leaf, from the two entries below it where it isn't.
#![tactic(auto)]

ghost use Rattle.std.specs.Prelude.{◌≡◌, ◌+◌, ◌≤◌};
ghost use Rattle.word.specs.Row.{word_of};
ghost use Rattle.summary.specs.Stretch.{summary_of};
ghost use Rattle.index.specs.Shape.{block, height, entry};
ghost use Rattle.entry.specs.Known.{Known};

use summary::Summary;
use word::Row;

// "Blocks are 256 bits; the last may be shorter." From B on, a block is empty.
fn block(row: &Row<'_>, b: usize) -> Summary
    requires { (row.now.m ≤ 2097152) × (b ≤ 8192) }
    ensures { result ≡ summary_of (block (word_of row.now) b) }
{
    let from = 256 * b;
    if row.m <= from {
        return Summary::EMPTY;
    }
    table::stretch(row.bytes, from, row.m.min(from + 256))
}

// Entry k of the word, where the entries past it are there already. `Known` and `Lent` say again that the bytes are there: they are
// definitions of their own, and a row says it to all.
pub fn own(row: &Row<'_>, l: usize, index: &[i32], k: usize) -> Summary
    requires { Known row.now.bytes.now row.now.m l index.now (k + 1) }
    ensures { result ≡ entry (height row.now.m) (word_of row.now) k }
{
    if k == 0 {
        return Summary::EMPTY;
    }
    if l <= k {
        return block(row, k - l);
    }
    let left = index::read(index, 2 * k);
    let right = index::read(index, 2 * k + 1);
    left.join(right)
}
