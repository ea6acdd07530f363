// A question: three numbers decoded into one case per kind with its checked places, or into the fault of the first check that fails.
#![tactic(auto)]

ghost use Rattle.std.specs.Prelude.{◌≡◌, []};
ghost use Rattle.word.specs.Row.{word_of};
ghost use Rattle.judge.specs.Numbered.{numbered};
ghost use Rattle.question.specs.Decode.{node, closing, boundaries, unless, decode_of};
ghost use Rattle.question.specs.Fault.{number_of};

pub use fault::Fault;
use word::Row;

mod fault;

// "Each question is three unsigned 32-bit numbers: kind, a, b."
#[derive(Clone, Copy)]
pub enum Question {
    Depth(usize),
    Number(usize),
    WithNumber(usize),
    Closing(usize),
    Opening(usize),
    Parent(usize),
    Ancestor(usize, u32),
    Branch(usize),
    Children(usize),
    FirstChild(usize),
    NextSibling(usize),
    Nearest(usize, usize),
    Lowest(usize, usize),
    Holds(usize, usize),
}

// The place of a node. `node` and `closing` stay two, as their definitions are: one function would be handed the bit and the fault
// of each.
#[tactic(auto, using(crate::proofs::Checks::node_checks))]
fn node(row: &Row<'_>, a: u32) -> Result<usize, Fault>
    ensures { numbered number_of result ≡ unless (node (word_of row.now) a []) a }
{
    let place = a as usize;
    if row.m <= place {
        return Err(Fault::NoPlace);
    }
    if word::opens(row.bytes, place) {
        Ok(place)
    } else {
        Err(Fault::NotOpening)
    }
}

// The place where a node closes.
#[tactic(auto, using(crate::proofs::Checks::closing_checks))]
fn closing(row: &Row<'_>, a: u32) -> Result<usize, Fault>
    ensures { numbered number_of result ≡ unless (closing (word_of row.now) a) a }
{
    let place = a as usize;
    if row.m <= place {
        return Err(Fault::NoPlace);
    }
    if word::opens(row.bytes, place) {
        Err(Fault::NotClosing)
    } else {
        Ok(place)
    }
}

// Two boundaries, in order.
#[tactic(auto, using(crate::proofs::Checks::boundary_checks))]
fn boundaries(row: &Row<'_>, a: u32, b: u32) -> Result<(usize, usize), Fault>
    ensures { numbered number_of result ≡ unless (boundaries (word_of row.now) a b) (a, b) }
{
    let (from, to) = (a as usize, b as usize);
    if row.m < from || row.m < to {
        return Err(Fault::NoPlace);
    }
    if to < from {
        return Err(Fault::Reversed);
    }
    Ok((from, to))
}

// "A question checks 11 to 16 in order, but argument a wholly (12 to 14) before b." Questions come from C as numbers: here a kind's
// number becomes its case, and nowhere else.
#[tactic(auto, using(crate::proofs::Checks::asked_checks), unfolding(crate::specs::Decode::decode_of))]
pub fn decode(row: &Row<'_>, kind: u32, a: u32, b: u32) -> Result<Question, Fault>
    ensures { numbered number_of result ≡ decode_of (word_of row.now) kind a b }
{
    Ok(match kind {
        1 => Question::Depth(node(row, a)?),
        2 => Question::Number(node(row, a)?),
        3 => Question::WithNumber(a as usize),
        4 => Question::Closing(node(row, a)?),
        5 => Question::Opening(closing(row, a)?),
        6 => Question::Parent(node(row, a)?),
        7 => Question::Ancestor(node(row, a)?, b),
        8 => Question::Branch(node(row, a)?),
        9 => Question::Children(node(row, a)?),
        10 => Question::FirstChild(node(row, a)?),
        11 => Question::NextSibling(node(row, a)?),
        12 => Question::Nearest(node(row, a)?, node(row, b)?),
        13 => {
            let (from, to) = boundaries(row, a, b)?;
            Question::Lowest(from, to)
        }
        14 => Question::Holds(node(row, a)?, node(row, b)?),
        _ => return Err(Fault::UnknownKind),
    })
}
