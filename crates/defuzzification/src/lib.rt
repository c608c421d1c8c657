// From the heights of the output terms to the answer of each output, and the held record after it.
#![tactic(auto)]

ghost use Rattle.std.specs.Prelude.{◌≡◌, map, ◌≤◌, ◌<◌};
ghost use Rattle.model.specs.Image.{word_at, singleton_at};
ghost use Rattle.model.specs.Evaluation.{no_answer, padded, held_of};
ghost use Rattle.degrees.specs.Tables.{numbers};
ghost use Rattle.centre.specs.Centre.{SumsOf};
ghost use Rattle.output_answer.specs.Positions.{positions_of};
ghost use Rattle.defuzzification.specs.Outputs.{heights_of, answers_by};

use bounds::{OUTPUT_TERMS, OUTPUTS};
use centre::Sums;
use degrees::Degrees;
use layout::CheckedImage;
use model::{Answer, Crisp, Held};
use output_answer::{answer, no_answer};
use stored_points::place_at;

// The position of output term t.
fn position(image: &CheckedImage, t: usize) -> Crisp
    requires { (image.now.input_terms ≤ t) × (t < image.now.stored.header.terms.rows) }
    ensures { result.0 ≡ (singleton_at (word_at image.now.stored.bytes.now) t).at }
{
    let stored = &image.stored;
    let first = stored.word(stored.header.terms.row(t) + header::TERM_FIRST);
    place_at(stored, first)
}

// The sums over the terms of output i.
fn sums_of(image: &CheckedImage, hs: &Degrees<OUTPUT_TERMS>, i: usize) -> Sums
    requires { i < image.now.stored.header.outputs.rows }
    ensures { SumsOf result.heights result.moment (positions_of (word_at image.now.stored.bytes.now) i)
        (heights_of (word_at image.now.stored.bytes.now) (numbers hs.now.at) image.now.input_terms i) }
{
    let stored = &image.stored;
    let row = stored.header.outputs.row(i);
    let first = stored.word(row + header::OUTPUT_FIRST);
    let count = stored.word(row + header::OUTPUT_TERMS);
    let mut sums = Sums::none();
    for t in first..first + count {
        let height = hs.get(t - image.input_terms);
        sums = sums.added(position(image, t), height);
    }
    sums
}

// The answers of all outputs, and the held record that stores their figures.
#[derive(Clone, Copy)]
pub struct Answered {
    pub answers: [Answer; OUTPUTS],
    pub held: Held,
}

// By the heights of the output terms and the held record.
pub fn outputs(image: &CheckedImage, hs: &Degrees<OUTPUT_TERMS>, held: Held) -> Answered
    ensures answers_value { result.answers ≡ padded no_answer
        (answers_by (word_at image.now.stored.bytes.now) (numbers hs.now.at) image.now.input_terms held) }
    ensures held_value { result.held ≡ held_of (map (λ a. a.thousandths.0)
        (answers_by (word_at image.now.stored.bytes.now) (numbers hs.now.at) image.now.input_terms held)) }
{
    let mut answers = [no_answer(); OUTPUTS];
    let mut figures = [Crisp(0); OUTPUTS];
    for i in 0..image.stored.header.outputs.rows {
        let a = answer(image, i, sums_of(image, hs, i), held.figures[i]);
        answers[i] = a;
        figures[i] = a.thousandths;
    }
    Answered {
        answers,
        held: Held { figures },
    }
}
