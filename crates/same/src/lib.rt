// Whether lent numbers are the index of a word: each entry in turn, from the last to entry 0.
#![tactic(auto)]

ghost use Rattle.std.specs.Prelude.{◌≡◌};
ghost use Rattle.word.specs.Row.{word_of};
ghost use Rattle.index.specs.Shape.{height};
ghost use Rattle.index.specs.Lent.{is_index};
ghost use Rattle.entry.specs.Known.{Lent};

use word::Row;

// Whether the first 8L numbers are the index. Each entry is held against those past it, which have been found right.
pub fn same(row: &Row<'_>, index: &[i32]) -> bool
    requires { Lent row.now.bytes.now row.now.m index.now }
    ensures { result ≡ is_index (height row.now.m) (word_of row.now) index.now }
{
    let l = index::leaves(row.m);
    for k in (0..2 * l).rev() {
        let s = entry::own(row, l, index, k);
        if index::read(index, k) != s {
            return false;
        }
    }
    true
}
