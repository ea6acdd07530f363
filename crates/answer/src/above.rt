// Kinds 5, 6 and 7: backward to the opening of a closing, and to the nodes above a node.
ghost use Rattle.std.specs.Prelude.{◌≡◌};
ghost use Rattle.question.specs.Places.{IsNode, IsClosing};
ghost use Rattle.question.specs.Answer.{answer_to};
ghost use Rattle.answer.specs.Its.{its_word};
ghost use Rattle.answer.specs.Told.{told};

use crate::{Answer, Balanced, give};
use question::Question;

// Kind 5. "Kind 5 goes back from a+1 by 0"
pub(crate) fn opening(of: &Balanced<'_>, a: usize) -> Answer
    requires { IsClosing (its_word of.now) a }
    ensures { told result ≡ answer_to (its_word of.now) (Question.Opening a) }
{
    give::reached(backward::backward(&of.lineage, a + 1, 0), 0)
}

// Kind 6. "kind 6 from a by -1"
pub(crate) fn parent(of: &Balanced<'_>, a: usize) -> Answer
    requires { IsNode (its_word of.now) a }
    ensures { told result ≡ answer_to (its_word of.now) (Question.Parent a) }
{
    give::reached(backward::backward(&of.lineage, a, -1), 0)
}

// Kind 7. "kind 7 from a by -b"; "a itself for 0", without a walk
pub(crate) fn ancestor(of: &Balanced<'_>, a: usize, b: u32) -> Answer
    requires { IsNode (its_word of.now) a }
    ensures { told result ≡ answer_to (its_word of.now) (Question.Ancestor a b) }
{
    if b == 0 {
        return give::answered(a, 0);
    }
    give::reached(backward::backward(&of.lineage, a, -i64::from(b)), 0)
}
