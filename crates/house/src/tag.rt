// What a field is, by its "one-byte tag".
ghost use Rattle.std.specs.Prelude.{◌≡◌, true, false, MatchResult};
ghost use Rattle.house.specs.Fields.{unknown_tag};
ghost use Rattle.house.specs.Tags.{byte_of};
ghost use Rattle.house.specs.declared.fault.Fault.TheVariants.{UnknownTag};

use crate::Fault;

#[derive(Clone, Copy, PartialEq, Eq)]
pub enum Tag {
    // 1: the word's size
    Size,
    // 2: "the next stretch of word bytes"
    Word,
    // 3: a question
    Question,
}

impl TryFrom<u8> for Tag {
    type Error = Fault;

    ghost try_from_gives = { λ byte r. MatchResult r
        (λ tag. (unknown_tag byte ≡ false) × (byte_of tag ≡ byte))
        (λ fault. (unknown_tag byte ≡ true) × (fault ≡ UnknownTag)) };

    fn try_from(byte: u8) -> Result<Tag, Fault> {
        match byte {
            1 => Ok(Tag::Size),
            2 => Ok(Tag::Word),
            3 => Ok(Tag::Question),
            _ => Err(Fault::UnknownTag),
        }
    }
}
