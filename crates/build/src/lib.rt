// Building: the refusals in their order, then the index filled into the lent slice, from the last entry to entry 0.
#![tactic(auto)]

ghost use Rattle.std.specs.Prelude.{◌≡◌, IfOk};
ghost use Rattle.std.proofs.lemmas.List.Edits.{sets};
ghost use Rattle.word.specs.Row.{word_of};
ghost use Rattle.judge.specs.Refusal.{code_of, outcome};
ghost use Rattle.index.specs.Shape.{height, index as spec_index};
ghost use Rattle.entry.specs.Known.{Lent};
ghost use Rattle.build.specs.Build.{refusal, Built};

use judge::Refusal;
use word::Row;

fn fill(row: &Row<'_>, index: &mut [i32])
    requires { Lent row.now.bytes.now row.now.m index.old }
    ensures { index.new ≡ sets index.old 0 (spec_index (height row.now.m) (word_of row.now)) }
{
    let l = index::leaves(row.m);
    for k in (0..2 * l).rev() {
        let s = entry::own(row, l, index, k);
        index::put(index, k, s);
    }
}

// The row that is lent, where no refusal holds; or else the first that does.
#[tactic(auto, unfolding(crate::specs::Build::refusal))]
fn accepted<'a>(bytes: &'a [u8], m: u32, room: usize) -> Result<Row<'a>, Refusal>
    ensures code { code_of result ≡ refusal bytes.now m room }
    ensures lent { IfOk result (λ row. (row.bytes.now ≡ bytes.now) × (row.m ≡ m)) }
{
    let row = judge::lent(bytes, m)?;
    if room < index::numbers_of(m) {
        return Err(Refusal::TooFewNumbers);
    }
    if !judge::balanced(&row) {
        return Err(Refusal::Unbalanced);
    }
    Ok(row)
}

#[tactic(auto, using(crate::proofs::Refusal::accepted), unfolding(crate::specs::Build::built_outcome, crate::specs::Build::built_index))]
pub fn build(bytes: &[u8], m: u32, index: &mut [i32]) -> Result<usize, Refusal>
    ensures { Built bytes.now m index.old (outcome result) index.new }
{
    let row = accepted(bytes, m, index.len())?;
    fill(&row, index);
    Ok((m / 2) as usize)
}
