// The range min-max tree of a word, in a slice of numbers as C lends it.
#![tactic(auto)]

ghost use Rattle.std.specs.Prelude.{◌≡◌, ◌+◌, ◌*◌, ◌^◌, ◌≤◌, ◌<◌, length};
ghost use Rattle.std.proofs.lemmas.List.Edits.{sets};
ghost use Rattle.index.specs.Shape.{height, numbers_of};
ghost use Rattle.index.specs.Lent.{entry_at, four};

use summary::Summary;

// Entry k. Only `read`, `put` and `numbers_of` know the record's width.
pub fn read(index: &[i32], k: usize) -> Summary
    requires { 4 * k + 3 < length index.now }
    ensures { result ≡ entry_at index.now k }
{
    let at = 4 * k;
    Summary::from([index[at], index[at + 1], index[at + 2], index[at + 3]])
}

pub fn put(index: &mut [i32], k: usize, s: Summary)
    requires { 4 * k + 3 < length index.old }
    ensures { index.new ≡ sets index.old (4 * k) (four s) }
{
    fill::copy(&<[i32; 4]>::from(s), index, 4 * k);
}

// "L is the least power of two that is at least 1 and at least B".
#[tactic(auto, using(crate::proofs::Height::leaves_are))]
pub fn leaves(m: usize) -> usize
    requires { m ≤ 2097152 }
    ensures { result ≡ 2 ^ height m }
{
    m.div_ceil(256).next_power_of_two()
}

// 8L, how many numbers the index takes.
pub fn numbers_of(m: u32) -> usize
    requires { m ≤ 2097152 }
    ensures { result ≡ numbers_of m }
{
    8 * leaves(m as usize)
}
