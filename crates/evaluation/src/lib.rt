// One evaluation call, and the fresh held record, of any bytes: the load check, 11, before all.
#![tactic(auto)]

ghost use Rattle.std.specs.Prelude.{◌≡◌};
ghost use Rattle.model.specs.Outcome.{verdict_in};
ghost use Rattle.model.specs.Refusals.{verdict_of};
ghost use Rattle.model.specs.Evaluation.{evaluate, Tells, fresh, record_in};

use block_evaluation::{evaluate_accepted, refused};
use held::fresh_record;
use load::examine;
use model::{Crisp, Evaluation, Held, Reading, Refusal};

// The fresh held record of an image.
// Kept: a verdict beside the record, since a refused one is all zero (document 01).
#[derive(Clone, Copy)]
pub struct Fresh {
    pub verdict: Result<(), Refusal>,
    pub held: Held,
}

// Image, eight readings of which the first n are looked at, held record.
pub fn evaluate(img: &[u8], rs: [Reading; bounds::INPUTS], n: usize, before: Held) -> Evaluation
    ensures { Tells result before (evaluate img.now rs n before) }
{
    match examine(img) {
        Ok(image) => evaluate_accepted(&image, &rs, n, before),
        Err(why) => refused(why, before),
    }
}

// The fresh held record; all zero where the image is not accepted.
pub fn fresh_of(img: &[u8]) -> Fresh
    ensures { (verdict_of result.verdict ≡ verdict_in (fresh img.now))
        × (result.held ≡ record_in (fresh img.now)) }
{
    match examine(img) {
        Ok(image) => Fresh {
            verdict: Ok(()),
            held: fresh_record(&image),
        },
        Err(why) => Fresh {
            verdict: Err(why),
            held: Held {
                figures: [Crisp(0); bounds::OUTPUTS],
            },
        },
    }
}
