// Evaluation for daily use: the host lends one held record and finds it brought up to date.
#![tactic(auto)]

ghost use Rattle.model.specs.Evaluation.{evaluate, Tells, leaving};

use evaluation::evaluate;
use model::{Evaluation, Held, Reading, Reply};

// Image, eight readings of which the first n are looked at, held record. A refused call leaves the record as it came.
pub fn evaluate_held(img: &[u8], rs: [Reading; bounds::INPUTS], n: usize, held: &mut Held) -> Reply
    ensures { Tells (leaving result held.new) held.old
        (evaluate img.now rs n held.old) }
{
    let Evaluation {
        verdict,
        answers,
        held: after,
    } = evaluate(img, rs, n, *held);
    *held = after;
    Reply { verdict, answers }
}

// The same on a copy that is lent here: for callers that hold the record by value.
pub fn evaluate_lending(
    img: &[u8],
    rs: [Reading; bounds::INPUTS],
    n: usize,
    before: Held,
) -> Evaluation
    ensures { Tells result before (evaluate img.now rs n before) }
{
    let mut held = before;
    let Reply { verdict, answers } = evaluate_held(img, rs, n, &mut held);
    Evaluation {
        verdict,
        answers,
        held,
    }
}
