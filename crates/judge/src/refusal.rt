// Why a call is refused, each by the number that document 01 gives it. A call gives the first that holds of those that it checks.
ghost use Rattle.std.specs.Prelude.{◌≡◌};
ghost use Rattle.judge.specs.Refusal.{number_of};

#[derive(Clone, Copy, PartialEq, Eq)]
pub enum Refusal {
    // "m > 2,097,152"
    TooLong = 1,
    // "fewer than ceil(m/8) bytes lent"
    TooFewBytes = 2,
    // "fewer than 8L index numbers lent"
    TooFewNumbers = 3,
    // "question slice not a multiple of three long"
    NotThrees = 4,
    // "answer slice shorter than the question slice"
    TooLittleRoom = 5,
    // "word not balanced"
    Unbalanced = 6,
    // "one of the 8L index numbers differs"
    Differs = 7,
}

impl From<Refusal> for u32 {
    ghost from_gives = { λ refusal n. n ≡ number_of refusal };

    fn from(refusal: Refusal) -> u32 {
        refusal as u32
    }
}
