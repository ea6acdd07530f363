// One question answered, over the walks that document 01's table names for its kind.
#![tactic(auto)]

ghost use Rattle.std.specs.Prelude.{◌≡◌};
ghost use Rattle.question.specs.Places.{Sound};
ghost use Rattle.question.specs.Answer.{answer_to, answer_of};
ghost use Rattle.answer.specs.Its.{its_word};
ghost use Rattle.answer.specs.Told.{told};

pub use balanced::Balanced;
use question::{Fault, Question};
use walk::Counted;

mod above;
mod balanced;
mod branch;
mod counts;
mod give;
mod pairs;

// "Each answer is code, result, entries read.": the result or what refuses it, and the reads.
pub type Answer = Counted<Result<u32, Fault>>;

// The places that the question carries were checked. A place and that it stands for a node stay beside each other: a struct of both
// would be made in each arm, to be opened at once.
fn answer_to(of: &Balanced<'_>, q: Question) -> Answer
    requires { Sound (its_word of.now) q }
    ensures { told result ≡ answer_to (its_word of.now) q }
{
    match q {
        Question::Depth(a) => counts::depth(of, a),
        Question::Number(a) => counts::number(of, a),
        Question::WithNumber(r) => counts::with_number(of, r),
        Question::Closing(a) => branch::closing(of, a),
        Question::Opening(a) => above::opening(of, a),
        Question::Parent(a) => above::parent(of, a),
        Question::Ancestor(a, b) => above::ancestor(of, a, b),
        Question::Branch(a) => branch::branch(of, a),
        Question::Children(a) => branch::children(of, a),
        Question::FirstChild(a) => branch::first_child(of, a),
        Question::NextSibling(a) => branch::next_sibling(of, a),
        Question::Nearest(a, b) => pairs::nearest(of, a, b),
        Question::Lowest(a, b) => pairs::lowest(of, a, b),
        Question::Holds(a, b) => branch::holds(of, a, b),
    }
}

// "Each question is three unsigned 32-bit numbers: kind, a, b. .. Each answer is code, result, entries read." The kind is a number here, as
// C asks it, and a case once it is decoded.
pub fn answer(of: &Balanced<'_>, kind: u32, a: u32, b: u32) -> Answer
    ensures { told result ≡ answer_of of.now.lineage.row.bytes.now of.now.lineage.row.m kind a b }
{
    match question::decode(&of.lineage.row, kind, a, b) {
        Ok(q) => answer_to(of, q),
        // "Codes 11 to 15 give result 0 and reads 0"
        Err(fault) => give::refused(fault, 0),
    }
}
