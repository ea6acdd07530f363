// What every walk goes over: a row, and its own index.
ghost use Rattle.walk.specs.Lent.{Lent};

use word::Row;

// The index has `l` leaves, and in it stand the row's own entries.
#[derive(Clone, Copy)]
pub struct Lineage<'a> {
    pub row: Row<'a>,
    pub index: &'a [i32],
    pub l: usize,
    ghost lent: { Lent row.bytes.now index.now row.m l },
}
