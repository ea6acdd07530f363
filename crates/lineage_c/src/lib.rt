// The C face: judging, building and a batch under names that C and Rust link, each the proved call with its whole promise.
// A slice is a pointer and how many elements it leads to; nothing is required of the numbers.
#![tactic(auto)]

ghost use Rattle.std.specs.Prelude.{◌≡◌};
ghost use Rattle.judge.specs.Judge.{judged};
ghost use Rattle.build.specs.Build.{Built};
ghost use Rattle.batch.specs.Batch.{Batched};

use judge::Outcome;

#[unsafe(no_mangle)]
pub extern "C" fn lineage_judge(bytes: &[u8], m: u32) -> Outcome
    ensures { result ≡ judged bytes.now m }
{
    Outcome::from(judge::judge(bytes, m))
}

#[unsafe(no_mangle)]
pub extern "C" fn lineage_build(bytes: &[u8], m: u32, index: &mut [i32]) -> Outcome
    ensures { Built bytes.now m index.old result index.new }
{
    Outcome::from(build::build(bytes, m, index))
}

#[unsafe(no_mangle)]
pub extern "C" fn lineage_batch(
    bytes: &[u8],
    m: u32,
    index: &[i32],
    questions: &[u32],
    answers: &mut [u32],
) -> Outcome
    ensures { Batched bytes.now m index.now questions.now answers.old result answers.new }
{
    Outcome::from(batch::batch(bytes, m, index, questions, answers))
}
