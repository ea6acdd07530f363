// What `run` refuses, by number 36: fewer bytes are lent than 1,024 lines may take.
ghost use Rattle.std.specs.Prelude.{◌≡◌, Err};
ghost use Rattle.run.specs.RanAs.{number_of, ran_as};

use judge::Outcome;

#[derive(Clone, Copy, PartialEq, Eq)]
pub struct NoRoom;

impl From<NoRoom> for u32 {
    ghost from_gives = { λ refused n. n ≡ number_of refused };

    fn from(_refused: NoRoom) -> u32 {
        36
    }
}

// The number, and 0 beside it.
impl From<NoRoom> for Outcome {
    ghost from_gives = { λ refused o. o ≡ ran_as (Err refused) };

    fn from(refused: NoRoom) -> Outcome {
        Outcome {
            code: u32::from(refused),
            value: 0,
        }
    }
}
