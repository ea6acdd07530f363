// Why a house file is refused, each by the number that document 01 gives it.
ghost use Rattle.std.specs.Prelude.{◌≡◌};
ghost use Rattle.house.specs.Faults.{number_of};

#[derive(Clone, Copy, PartialEq, Eq)]
pub enum Fault {
    // "fewer than ceil(m/8) bytes"
    TooFewBytes = 2,
    // "cut short, also for empty input"
    CutShort = 31,
    // "unknown tag"
    UnknownTag = 32,
    // "out of place"
    OutOfPlace = 33,
    // "wrong length"
    WrongLength = 34,
    // "m over 65,536, more than ceil(m/8) word bytes, or a 1,025th question", and "whole input over 49,152 bytes"
    TooMuch = 35,
}

impl From<Fault> for u32 {
    ghost from_gives = { λ fault n. n ≡ number_of fault };

    fn from(fault: Fault) -> u32 {
        fault as u32
    }
}
