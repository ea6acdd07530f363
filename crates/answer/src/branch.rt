// Kinds 4, 8, 9, 10, 11 and 14: what lies in a node's branch, and where the branch ends.
ghost use Rattle.std.specs.Prelude.{◌≡◌, true, ◌+◌};
ghost use Rattle.word.specs.Bits.{bit};
ghost use Rattle.question.specs.Places.{IsNode};
ghost use Rattle.question.specs.Answer.{answer_to};
ghost use Rattle.answer.specs.Its.{its_word};
ghost use Rattle.answer.specs.Ready.{Ends};
ghost use Rattle.answer.specs.Told.{told};

use crate::{Answer, Balanced, give};
use question::{Fault, Question};
use walk::Counted;

// "Kinds 4, 8, 9, 11 and 14 go forward from a by 0." A node's branch always ends: the boundary past its closing.
pub(crate) fn end_of(of: &Balanced<'_>, a: usize) -> Counted<usize>
    requires { IsNode (its_word of.now) a }
    ensures { Ends of.now.lineage.row.bytes.now of.now.lineage.row.m a result }
{
    let found = forward::forward(&of.lineage, a, 0);
    Counted {
        value: found.value.unwrap(),
        reads: found.reads,
    }
}

// Kind 4.
pub(crate) fn closing(of: &Balanced<'_>, a: usize) -> Answer
    requires { IsNode (its_word of.now) a }
    ensures { told result ≡ answer_to (its_word of.now) (Question.Closing a) }
{
    let end = end_of(of, a);
    give::answered(end.value - 1, end.reads)
}

// Kind 8. A branch of s nodes is 2s bits.
pub(crate) fn branch(of: &Balanced<'_>, a: usize) -> Answer
    requires { IsNode (its_word of.now) a }
    ensures { told result ≡ answer_to (its_word of.now) (Question.Branch a) }
{
    let end = end_of(of, a);
    give::answered((end.value - a) / 2, end.reads)
}

// Kind 9, of a node that is no leaf. The children are the boundaries between a's opening and its closing that reach the least depth there.
fn between(of: &Balanced<'_>, a: usize, end: Counted<usize>) -> Answer
    requires { IsNode (its_word of.now) a ×
        Ends of.now.lineage.row.bytes.now of.now.lineage.row.m a end ×
        (bit of.now.lineage.row.bytes.now (a + 1) ≡ true) }
    ensures { told result ≡ answer_to (its_word of.now) (Question.Children a) }
{
    let r = range::range(&of.lineage, a + 1, end.value - 1);
    give::answered(r.value.count as usize, end.reads + r.reads)
}

// Kind 9. The next bit shows a leaf.
pub(crate) fn children(of: &Balanced<'_>, a: usize) -> Answer
    requires { IsNode (its_word of.now) a }
    ensures { told result ≡ answer_to (its_word of.now) (Question.Children a) }
{
    let end = end_of(of, a);
    if word::opens(of.lineage.row.bytes, a + 1) {
        return between(of, a, end);
    }
    give::answered(0, end.reads)
}

// Kind 10. No walk: the next bit shows it.
pub(crate) fn first_child(of: &Balanced<'_>, a: usize) -> Answer
    requires { IsNode (its_word of.now) a }
    ensures { told result ≡ answer_to (its_word of.now) (Question.FirstChild a) }
{
    if word::opens(of.lineage.row.bytes, a + 1) {
        return give::answered(a + 1, 0);
    }
    give::refused(Fault::NoNode, 0)
}

// Kind 11. What opens right after a's closing is its next sibling.
pub(crate) fn next_sibling(of: &Balanced<'_>, a: usize) -> Answer
    requires { IsNode (its_word of.now) a }
    ensures { told result ≡ answer_to (its_word of.now) (Question.NextSibling a) }
{
    let end = end_of(of, a);
    if end.value < of.lineage.row.m && word::opens(of.lineage.row.bytes, end.value) {
        return give::answered(end.value, end.reads);
    }
    give::refused(Fault::NoNode, end.reads)
}

// Kind 14. A branch is one run of the row.
pub(crate) fn holds(of: &Balanced<'_>, a: usize, b: usize) -> Answer
    requires { IsNode (its_word of.now) a × IsNode (its_word of.now) b }
    ensures { told result ≡ answer_to (its_word of.now) (Question.Holds a b) }
{
    let end = end_of(of, a);
    if (a..end.value).contains(&b) {
        return give::answered(1, end.reads);
    }
    give::answered(0, end.reads)
}
