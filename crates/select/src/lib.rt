// The select walk: "Select r < n: the opening with number r." The way down from entry 1, then the scan of the leaf reached.
// Entries are read by `walk::read` alone, which counts them.
#![tactic(auto)]

ghost use Rattle.std.specs.Prelude.{◌≡◌, ◌-◌, ◌*◌, ◌/◌, ◌≤◌, min, length, pos, ◌+ℤ◌, ◌≤ℤ◌};
ghost use Rattle.word.specs.Signed.{P};
ghost use Rattle.word.specs.Bits.{bits};
ghost use Rattle.word.specs.Row.{word_of};
ghost use Rattle.index.specs.Shape.{height};
ghost use Rattle.walk.specs.Walk.{there, said};
ghost use Rattle.walk.specs.Scan.{nth};
ghost use Rattle.walk.specs.Select.{select};
ghost use Rattle.select.specs.Sink.{Over, sunk};

use walk::{Counted, Lineage};

// The state of the way down: the entry, the first block that it stands over and how many, the number sought from there, and the reads.
#[derive(Clone, Copy)]
pub struct Sink {
    pub entry: usize,
    pub block: usize,
    pub width: usize,
    pub number: usize,
    pub reads: u32,
}

// The bits of `width` blocks from block `block` on; "cut at m".
fn length_of(m: usize, block: usize, width: usize) -> usize
    requires { (block ≤ 1073741824) × (width ≤ 1073741824) }
    ensures { result ≡ min (256 * width) (m - 256 * block) }
{
    (256 * width).min(m.saturating_sub(256 * block))
}

// "its openings are half of the sum of its length and its total"
fn openings(length: usize, total: i32) -> usize
    requires { (length ≤ 2097152) × (pos 0 ≤ℤ (pos length +ℤ total)) }
    ensures { result ≡ P (pos length +ℤ total) / 2 }
{
    let sum = length as i64 + i64::from(total);
    sum as usize / 2
}

// Of the bits from `from` up to `to`, the opening with that number.
fn scan(bytes: &[u8], from: usize, to: usize, number: usize) -> Option<usize>
    requires { to ≤ 8 * length bytes.now }
    ensures { there result ≡ nth from (bits bytes.now from (to - from)) number }
{
    (from..to).filter(|&i| word::opens(bytes, i)).nth(number)
}

impl Sink {
    // "read the left child; its openings are half of the sum of its length and its total. If r is below them go left, else take
    // them off r and go right unread."
    fn down(self, index: &[i32], m: usize) -> Sink
        requires { Over index.now m self }
        ensures { result ≡ sunk index.now m self }
    {
        let half = self.width / 2;
        let left = walk::read(index, 2 * self.entry, self.reads);
        let o = openings(length_of(m, self.block, half), left.value.total);
        if self.number < o {
            Sink {
                entry: 2 * self.entry,
                block: self.block,
                width: half,
                number: self.number,
                reads: left.reads,
            }
        } else {
            Sink {
                entry: 2 * self.entry + 1,
                block: self.block + half,
                width: half,
                number: self.number - o,
                reads: left.reads,
            }
        }
    }
}

// "From entry 1 down": l blocks stand under it, and one under a leaf.
pub fn select(lineage: &Lineage<'_>, r: usize) -> Counted<Option<usize>>
    ensures { said result ≡ select (height lineage.now.row.m) (word_of lineage.now.row) r }
{
    let m = lineage.row.m;
    let mut v = Sink {
        entry: 1,
        block: 0,
        width: lineage.l,
        number: r,
        reads: 0,
    };
    while v.width > 1 {
        v = v.down(lineage.index, m);
    }
    let b = v.block;
    Counted {
        value: scan(lineage.row.bytes, 256 * b, walk::end_of(m, b), v.number),
        reads: v.reads,
    }
}
