// Why a question is refused, by the numbers 11 to 16.
ghost use Rattle.std.specs.Prelude.{◌≡◌};
ghost use Rattle.question.specs.Fault.{number_of};

#[derive(Clone, Copy, PartialEq, Eq)]
pub enum Fault {
    // "kind not 1 to 14"
    UnknownKind = 11,
    // "place a or b not below m", "for kind 13, a boundary above m"
    NoPlace = 12,
    // "place isn't an opening (all kinds of node)"
    NotOpening = 13,
    // "place isn't a closing (kind 5)"
    NotClosing = 14,
    // "kind 13 with a > b"
    Reversed = 15,
    // "no such node", which the answers alone give
    NoNode = 16,
}

impl From<Fault> for u32 {
    ghost from_gives = { λ f n. n ≡ number_of f };

    fn from(fault: Fault) -> u32 {
        fault as u32
    }
}
