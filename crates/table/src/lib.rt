// The summary of a stretch of the lent bytes' bits: a whole byte at once through the table of rows.rt, what is left at either
// end bit by bit.
#![tactic(auto)]

ghost use Rattle.std.specs.Prelude.{◌≡◌, [], ◌∷◌, ℕ, ◌-◌, ◌*◌, ◌≤◌, ltb, length};
ghost use Rattle.word.specs.Bits.{bits};
ghost use Rattle.summary.specs.Stretch.{summary_of};
ghost use Rattle.table.specs.Rows.{whole_at};

use summary::Summary;

mod rows;

// One parenthesis by itself.
fn of_bit(opens: bool) -> Summary
    ensures { result ≡ summary_of (opens ∷ []) }
{
    let step = summary::step(opens);
    Summary::from([step, step, step, 1])
}

// The bits from `from` up to but not including `to`, one by one. Bytes, first bit and end stay three parameters, here and in the walks'
// scans: a struct of them would be written out at each call.
fn bits_of(bytes: &[u8], from: usize, to: usize) -> Summary
    requires { (from ≤ to) × (to ≤ 8 * length bytes.now) × (to ≤ 4194304) }
    ensures { result ≡ summary_of (bits bytes.now from (to - from)) }
{
    let mut s = Summary::EMPTY;
    for i in from..to {
        s = s.join(of_bit(word::opens(bytes, i)));
    }
    s
}

// The bytes from place `first` up to but not including `end`, each by its row of the table.
fn bytes_of(bytes: &[u8], first: usize, end: usize) -> Summary
    requires { (first ≤ end) × (end ≤ length bytes.now) × (8 * end ≤ 4194304) }
    ensures { result ≡ summary_of (bits bytes.now (8 * first) (8 * (end - first))) }
{
    let rows = rows::table();
    let mut s = Summary::EMPTY;
    for b in &bytes[first..end] {
        s = s.join(Summary::from(rows[*b as usize]));
    }
    s
}

// How many bytes end by bit `to`. "An unfinished last byte is taken bit by bit."
fn whole(to: usize) -> usize
    ensures { (q : ℕ) → whole_at (8 * q) to ≡ ltb q result }
{
    to / 8
}

// The bits from `from` up to but not including `to`: those before the first whole byte, the whole bytes, and those that are
// left. No other bit counts.
#[tactic(auto, using(crate::proofs::Part::ends_by))]
pub fn stretch(bytes: &[u8], from: usize, to: usize) -> Summary
    requires { (from ≤ to) × (to ≤ 8 * length bytes.now) × (to ≤ 4194304) }
    ensures { result ≡ summary_of (bits bytes.now from (to - from)) }
{
    let first = from.div_ceil(8);
    let end = whole(to);
    if end < first {
        return bits_of(bytes, from, to);
    }
    bits_of(bytes, from, 8 * first)
        .join(bytes_of(bytes, first, end))
        .join(bits_of(bytes, 8 * end, to))
}
