// A batch: the refusals in their order, then each question's own answer over the lent slice. Word and index are checked once;
// a question then costs its walks and nothing else.
#![tactic(auto)]

ghost use Rattle.std.specs.Prelude.{◌≡◌, ◌+◌, ◌≤◌, ◌%◌, length, IfOk};
ghost use Rattle.std.proofs.lemmas.List.Edits.{sets};
ghost use Rattle.judge.specs.Refusal.{code_of, outcome};
ghost use Rattle.answer.specs.Told.{told};
ghost use Rattle.batch.specs.Batch.{refusal, three, answers_of, Batched};

use answer::{Answer, Balanced};
use judge::Refusal;
use walk::Lineage;

// "Each answer is code, result, entries read.": to C it is three numbers of one slice. Three stores: `fill::copy` was tried, and a question
// without a walk took half as long again. Code and result are read off the answer one by one: a `match` of both took a branch on whether
// there is such a node, which on a random row no processor foresees, and kind 10 took twice as long.
fn put(answers: &mut [u32], at: usize, a: Answer)
    requires { at + 3 ≤ length answers.old }
    ensures { answers.new ≡ sets answers.old at (three (told a)) }
{
    answers[at] = a.value.err().map_or(0, u32::from);
    answers[at + 1] = a.value.unwrap_or(0);
    answers[at + 2] = a.reads;
}

// Three numbers in, three out, each question in turn, in slices of numbers as C lends them. The loop goes by places, since an answer
// stands where its question stood.
fn answer_all(of: &Balanced<'_>, questions: &[u32], answers: &mut [u32])
    requires { (length questions.now % 3 ≡ 0) × (length questions.now ≤ length answers.old) }
    ensures { answers.new ≡ sets answers.old 0 (answers_of of.now.lineage.row.bytes.now of.now.lineage.row.m questions.now) }
{
    for at in (0..questions.len()).step_by(3) {
        let a = answer::answer(of, questions[at], questions[at + 1], questions[at + 2]);
        put(answers, at, a);
    }
}

// The lineage that is lent, where no refusal holds; or else the first that does. Build's tests are among these, but 4 and 5 stand between
// them: the order is document 01's.
#[tactic(auto, unfolding(crate::specs::Batch::refusal))]
fn accepted<'a>(
    bytes: &'a [u8],
    m: u32,
    index: &'a [i32],
    asked: usize,
    room: usize,
) -> Result<Balanced<'a>, Refusal>
    ensures code { code_of result ≡ refusal bytes.now m index.now asked room }
    ensures lent { IfOk result (λ of. (of.lineage.row.bytes.now ≡ bytes.now) × (of.lineage.row.m ≡ m)) }
{
    let row = judge::lent(bytes, m)?;
    if index.len() < index::numbers_of(m) {
        return Err(Refusal::TooFewNumbers);
    }
    if asked % 3 != 0 {
        return Err(Refusal::NotThrees);
    }
    if room < asked {
        return Err(Refusal::TooLittleRoom);
    }
    if !judge::balanced(&row) {
        return Err(Refusal::Unbalanced);
    }
    if !same::same(&row, index) {
        return Err(Refusal::Differs);
    }
    let l = index::leaves(row.m);
    let lineage = Lineage { row, index, l };
    Ok(Balanced { lineage })
}

#[tactic(auto, using(crate::proofs::Refusals::accepted), unfolding(crate::specs::Batch::batch_outcome, crate::specs::Batch::batch_answers))]
pub fn batch(
    bytes: &[u8],
    m: u32,
    index: &[i32],
    questions: &[u32],
    answers: &mut [u32],
) -> Result<usize, Refusal>
    ensures { Batched bytes.now m index.now questions.now answers.old (outcome result) answers.new }
{
    let of = accepted(bytes, m, index, questions.len(), answers.len())?;
    answer_all(&of, questions, answers);
    Ok(questions.len() / 3)
}
