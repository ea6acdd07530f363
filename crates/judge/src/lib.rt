// The judge: whether the lent bytes hold a balanced word of m bits.
#![tactic(auto)]

ghost use Rattle.std.specs.Prelude.{◌≡◌, ◌≤◌, IfOk};
ghost use Rattle.word.specs.Bits.{bytes_of};
ghost use Rattle.word.specs.Parse.{is_balanced};
ghost use Rattle.word.specs.Row.{word_of};
ghost use Rattle.judge.specs.Judge.{unlent, refusal, judged};
ghost use Rattle.judge.specs.Refusal.{code_of, outcome, verdict};

pub use refusal::Refusal;
use word::Row;

mod refusal;

// What a call gives back to C, which has no `Result`: a refusal's number or 0, and the number that the call names beside it.
#[repr(C)]
#[derive(Clone, Copy)]
pub struct Outcome {
    pub code: u32,
    pub value: usize,
}

impl From<Result<usize, Refusal>> for Outcome {
    ghost from_gives = { λ r o. o ≡ outcome r };

    fn from(ended: Result<usize, Refusal>) -> Outcome {
        match ended {
            Ok(value) => Outcome { code: 0, value },
            Err(refusal) => Outcome {
                code: u32::from(refusal),
                value: 0,
            },
        }
    }
}

// Of a call that names no number.
impl From<Result<(), Refusal>> for Outcome {
    ghost from_gives = { λ r o. o ≡ verdict r };

    fn from(ended: Result<(), Refusal>) -> Outcome {
        Outcome::from(ended.map(|()| 0))
    }
}

// ceil(m/8)
pub fn bytes_of(m: u32) -> usize
    ensures { result ≡ bytes_of m }
{
    (m as usize).div_ceil(8)
}

// D ends at 0 and is never negative on the way.
#[tactic(auto, using(crate::proofs::Tests::by_least, crate::proofs::Tests::by_total))]
pub fn balanced(row: &Row<'_>) -> bool
    requires { row.now.m ≤ 2097152 }
    ensures { result ≡ is_balanced (word_of row.now) }
{
    let s = table::stretch(row.bytes, 0, row.m);
    s.total == 0 && s.least >= 0
}

// The row that is lent, where it is no longer than a word may be and all its bytes are there. Calls take `bytes` and `m` as two, as C lends
// them, and here they become a row.
#[tactic(auto, unfolding(crate::specs::Judge::judged))]
pub fn lent(bytes: &[u8], m: u32) -> Result<Row<'_>, Refusal>
    ensures code { code_of result ≡ unlent bytes.now m }
    ensures row { IfOk result (λ row. (row.bytes.now ≡ bytes.now) × (row.m ≡ m) × (m ≤ 2097152)) }
{
    if m > 2097152 {
        return Err(Refusal::TooLong);
    }
    if bytes.len() < bytes_of(m) {
        return Err(Refusal::TooFewBytes);
    }
    Ok(Row {
        bytes,
        m: m as usize,
    })
}

// The first refusal that holds, or none.
#[tactic(auto, unfolding(crate::specs::Judge::judged))]
pub fn judge(bytes: &[u8], m: u32) -> Result<(), Refusal>
    ensures { verdict result ≡ judged bytes.now m }
{
    let row = lent(bytes, m)?;
    if !balanced(&row) {
        return Err(Refusal::Unbalanced);
    }
    Ok(())
}
