// How outcomes cross to a host: document 01's numbers, and the place and the length beside them.
#![tactic(auto)]

ghost use Rattle.std.specs.Prelude.{◌≡◌};
ghost use Rattle.model.specs.Outcome.{accepted};
ghost use Rattle.model.specs.Refusals.{refusal_of, written_of, verdict_of};
ghost use Rattle.outcome_crossing.specs.Outcomes.{outcome_of, bare_outcome};

use model::Refusal;

// 0, or the number of the refusal; its place, where it has one; how many bytes were written.
#[repr(C)]
#[derive(Clone, Copy)]
pub struct GrillenhelmOutcome {
    pub refusal: u32,
    pub has_place: u32,
    pub place: usize,
    pub length: usize,
}

fn accepted(length: usize) -> GrillenhelmOutcome
    ensures { result ≡ outcome_of (λ n. n) (accepted length) }
{
    GrillenhelmOutcome {
        refusal: 0,
        has_place: 0,
        place: 0,
        length,
    }
}

fn refused(why: Refusal) -> GrillenhelmOutcome
    ensures { result ≡ outcome_of (λ n. n) (refusal_of why) }
{
    let t = refusals::number_and_place(why);
    GrillenhelmOutcome {
        refusal: t.number as u32,
        has_place: t.place.is_some() as u32,
        place: t.place.unwrap_or(0),
        length: 0,
    }
}

pub fn written(w: Result<usize, Refusal>) -> GrillenhelmOutcome
    ensures { result ≡ outcome_of (λ n. n) (written_of w) }
{
    match w {
        Ok(n) => accepted(n),
        Err(why) => refused(why),
    }
}

pub fn verdict(v: Result<(), Refusal>) -> GrillenhelmOutcome
    ensures { result ≡ bare_outcome (verdict_of v) }
{
    match v {
        Ok(()) => accepted(0),
        Err(why) => refused(why),
    }
}
