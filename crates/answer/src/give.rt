// What every question gets in the end: a result, or the fault that refuses it.
ghost use Rattle.std.specs.Prelude.{◌≡◌, ◌≤◌};
ghost use Rattle.walk.specs.Walk.{said};
ghost use Rattle.question.specs.Fault.{number_of};
ghost use Rattle.question.specs.Reply.{gives, refused};
ghost use Rattle.answer.specs.Ready.{Near, replied, reached_of};
ghost use Rattle.answer.specs.Told.{told};

use crate::Answer;
use question::Fault;
use walk::Counted;

pub(crate) fn answered(res: usize, reads: u32) -> Answer
    requires { res ≤ 4294967295 }
    ensures { told result ≡ replied (gives res) reads }
{
    Counted {
        value: Ok(res as u32),
        reads,
    }
}

// "Codes 11 to 15 give result 0 and reads 0", "16 gives result 0 and the walk's reads"
pub(crate) fn refused(fault: Fault, reads: u32) -> Answer
    ensures { told result ≡ replied (refused (number_of fault)) reads }
{
    Counted {
        value: Err(fault),
        reads,
    }
}

// What the last walk found is the node asked for; where it found nothing there is no such node.
pub(crate) fn reached(found: Counted<Option<usize>>, before: u32) -> Answer
    requires { Near (said found) × (before ≤ 1073741824) }
    ensures { told result ≡ reached_of (said found) before }
{
    let reads = before + found.reads;
    match found.value {
        Some(p) => answered(p, reads),
        None => refused(Fault::NoNode, reads),
    }
}
