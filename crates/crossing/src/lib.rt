// How what the public functions hand back crosses to a host in C or Rust; the held record crosses as it is.
#![tactic(auto)]

ghost use Rattle.std.specs.Prelude.{◌≡◌};
ghost use Rattle.crossing.specs.Crossing.{fresh_of, evaluation_of, reply_of};

use call_crossing::{GrillenhelmAnswer, answers_of};
use evaluation::Fresh;
use model::{Evaluation, Held, Reply};
use outcome_crossing::{GrillenhelmOutcome, verdict};

#[repr(C)]
#[derive(Clone, Copy)]
pub struct GrillenhelmFresh {
    pub outcome: GrillenhelmOutcome,
    pub held: Held,
}

#[repr(C)]
#[derive(Clone, Copy)]
pub struct GrillenhelmEvaluation {
    pub outcome: GrillenhelmOutcome,
    pub answers: [GrillenhelmAnswer; 6],
    pub held: Held,
}

#[repr(C)]
#[derive(Clone, Copy)]
pub struct GrillenhelmReply {
    pub outcome: GrillenhelmOutcome,
    pub answers: [GrillenhelmAnswer; 6],
}

pub fn fresh_of(f: Fresh) -> GrillenhelmFresh
    ensures { result ≡ fresh_of f }
{
    GrillenhelmFresh {
        outcome: verdict(f.verdict),
        held: f.held,
    }
}

pub fn evaluation_of(e: Evaluation) -> GrillenhelmEvaluation
    ensures { result ≡ evaluation_of e }
{
    let Evaluation {
        verdict: told,
        answers,
        held,
    } = e;
    GrillenhelmEvaluation {
        outcome: verdict(told),
        answers: answers_of(answers),
        held,
    }
}

pub fn reply_of(y: Reply) -> GrillenhelmReply
    ensures { result ≡ reply_of y }
{
    let Reply {
        verdict: told,
        answers,
    } = y;
    GrillenhelmReply {
        outcome: verdict(told),
        answers: answers_of(answers),
    }
}
