// A row as it is lent: its bytes, and how many bits of them are the row's. Whoever needs a word's longest length asks it in a clause,
// since a question is decoded over longer rows too.
ghost use Rattle.std.specs.Prelude.{◌*◌, ◌≤◌, length};

#[derive(Clone, Copy)]
pub struct Row<'a> {
    pub bytes: &'a [u8],
    pub m: usize,
    ghost enough: { m ≤ 8 * length bytes.now },
}
