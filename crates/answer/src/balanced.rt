// What every answer stands on: a lineage whose row is balanced.
ghost use Rattle.std.specs.Prelude.{◌≡◌, true};
ghost use Rattle.word.specs.Bits.{word};
ghost use Rattle.word.specs.Parse.{is_balanced};

use walk::Lineage;

#[derive(Clone, Copy)]
pub struct Balanced<'a> {
    pub lineage: Lineage<'a>,
    ghost balanced: { is_balanced (word lineage.row.bytes.now lineage.row.m) ≡ true },
}
