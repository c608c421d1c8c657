// One evaluation call on an accepted image: the checks 12, 13, 14 in this order, then the answers.
#![tactic(auto)]

ghost use Rattle.model.specs.Refusals.{refusal_of};
ghost use Rattle.model.specs.Image.{word_at, decode};
ghost use Rattle.model.specs.Evaluation.{evaluate_block, Tells};

use accumulation::heights;
use defuzzification::{Answered, outputs};
use fuzzification::term_degrees;
use held::record_ok;
use input_values::input_values;
use layout::CheckedImage;
use model::{Evaluation, Held, Reading, Refusal};
use output_answer::no_answer;

// A refused call answers all places as none and leaves the record.
pub fn refused(why: Refusal, before: Held) -> Evaluation
    ensures { Tells result before (refusal_of why) }
{
    Evaluation {
        verdict: Err(why),
        answers: [no_answer(); bounds::OUTPUTS],
        held: before,
    }
}

// On an accepted image.
pub fn evaluate_accepted(
    image: &CheckedImage,
    rs: &[Reading; bounds::INPUTS],
    n: usize,
    before: Held,
) -> Evaluation
    ensures { Tells result before
        (evaluate_block (decode (word_at image.now.stored.bytes.now)) rs.now n before) }
{
    if n != image.stored.header.inputs.rows {
        return refused(Refusal::WrongCount, before);
    }
    if !record_ok(image, before) {
        return refused(Refusal::WrongHeld, before);
    }
    let xs = match input_values(image, rs) {
        Ok(xs) => xs,
        Err(wrong) => return refused(Refusal::WrongReading(wrong.input), before),
    };
    let ds = term_degrees(image, &xs);
    let hs = heights(image, &ds);
    let Answered { answers, held } = outputs(image, &hs, before);
    Evaluation {
        verdict: Ok(()),
        answers,
        held,
    }
}
