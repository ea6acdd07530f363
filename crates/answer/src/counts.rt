// Kinds 1, 2 and 3: depth and number of a node, and the node with a number.
ghost use Rattle.std.specs.Prelude.{◌≡◌};
ghost use Rattle.question.specs.Places.{IsNode};
ghost use Rattle.question.specs.Answer.{answer_to};
ghost use Rattle.answer.specs.Its.{its_word};
ghost use Rattle.answer.specs.Told.{told};

use crate::{Answer, Balanced, give};
use question::{Fault, Question};

// Kind 1. D(a) is the depth of node a.
pub(crate) fn depth(of: &Balanced<'_>, a: usize) -> Answer
    requires { IsNode (its_word of.now) a }
    ensures { told result ≡ answer_to (its_word of.now) (Question.Depth a) }
{
    let d = prefix::prefix(&of.lineage, a);
    give::answered(d.value as usize, d.reads)
}

// Kind 2. The openings before a are half of a and D(a): the node itself is not among them.
pub(crate) fn number(of: &Balanced<'_>, a: usize) -> Answer
    requires { IsNode (its_word of.now) a }
    ensures { told result ≡ answer_to (its_word of.now) (Question.Number a) }
{
    let d = prefix::prefix(&of.lineage, a);
    give::answered((a + d.value as usize) / 2, d.reads)
}

// Kind 3.
pub(crate) fn with_number(of: &Balanced<'_>, r: usize) -> Answer
    ensures { told result ≡ answer_to (its_word of.now) (Question.WithNumber r) }
{
    if of.lineage.row.m / 2 <= r {
        return give::refused(Fault::NoNode, 0);
    }
    give::reached(select::select(&of.lineage, r), 0)
}
