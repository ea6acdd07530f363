// Kinds 12 and 13: the range between two places, and the walk by its least.
ghost use Rattle.std.specs.Prelude.{◌≡◌, ◌≤◌, ◌<◌, pos, ◌-ℤ◌};
ghost use Rattle.std.specs.Int.Signed.{le_z};
ghost use Rattle.question.specs.Places.{IsNode};
ghost use Rattle.question.specs.Answer.{answer_to};
ghost use Rattle.answer.specs.Its.{its_word};
ghost use Rattle.answer.specs.Told.{told};

use crate::{Answer, Balanced, give};
use question::Question;

// Whether a range's least is N or more: with 1 all its boundaries lie above its start, with 0 none lies below it.
fn at_least<const N: i32>(least: i32) -> bool
    ensures { result ≡ le_z N least }
{
    N <= least
}

// "the range's least less 1"
fn less_one(least: i32) -> i64
    ensures { result ≡ least -ℤ pos 1 }
{
    i64::from(least) - 1
}

// Kind 12 of an earlier and a later node. Where the depth stays above the earlier one's, that one is the answer; else "12 goes back by the
// range's least less 1".
fn shared(of: &Balanced<'_>, a: usize, b: usize) -> Answer
    requires { IsNode (its_word of.now) a × IsNode (its_word of.now) b × (a < b) }
    ensures { told result ≡ answer_to (its_word of.now) (Question.Nearest a b) }
{
    let r = range::range(&of.lineage, a, b);
    if at_least::<1>(r.value.least) {
        return give::answered(a, r.reads);
    }
    let back = less_one(r.value.least);
    give::reached(backward::backward(&of.lineage, a, back), r.reads)
}

// Kind 12.
pub(crate) fn nearest(of: &Balanced<'_>, a: usize, b: usize) -> Answer
    requires { IsNode (its_word of.now) a × IsNode (its_word of.now) b }
    ensures { told result ≡ answer_to (its_word of.now) (Question.Nearest a b) }
{
    if a == b {
        return give::answered(a, 0);
    }
    if a < b {
        return shared(of, a, b);
    }
    shared(of, b, a)
}

// Kind 13 of two different boundaries. Where no later boundary is lower, a is the answer; else "13 forward by that least". `shared` and
// `lower` stay two, as the kinds are: another walk, by another amount.
fn lower(of: &Balanced<'_>, a: usize, b: usize) -> Answer
    requires { (a < b) × (b ≤ of.now.lineage.row.m) }
    ensures { told result ≡ answer_to (its_word of.now) (Question.Lowest a b) }
{
    let r = range::range(&of.lineage, a, b);
    if at_least::<0>(r.value.least) {
        return give::answered(a, r.reads);
    }
    let by = i64::from(r.value.least);
    give::reached(forward::forward(&of.lineage, a, by), r.reads)
}

// Kind 13.
pub(crate) fn lowest(of: &Balanced<'_>, a: usize, b: usize) -> Answer
    requires { (a ≤ b) × (b ≤ of.now.lineage.row.m) }
    ensures { told result ≡ answer_to (its_word of.now) (Question.Lowest a b) }
{
    if a == b {
        return give::answered(a, 0);
    }
    lower(of, a, b)
}
