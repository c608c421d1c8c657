// The answer of one output: fired, by the sums over its terms, or where no rule fired its default or what it held.
#![tactic(auto)]

ghost use Rattle.std.specs.Prelude.{◌≡◌, List, ℕ, ◌<◌};
ghost use Rattle.model.specs.Image.{word_at, output_at};
ghost use Rattle.model.specs.Evaluation.{answer_with, output_answer, no_answer};
ghost use Rattle.centre.specs.Centre.{SumsOf};
ghost use Rattle.output_answer.specs.Positions.{positions_of};

use centre::Sums;
use layout::CheckedImage;
use model::{Answer, Crisp, Mark};
use stored_ranges::default_of;

// The answer with a figure, which it gives as a float too.
fn answer_with(mark: Mark, figure: Crisp, sum: u32) -> Answer
    ensures { result ≡ answer_with mark figure.0 sum }
{
    Answer {
        mark,
        thousandths: figure,
        sum,
        value: crisp::to_float(figure),
    }
}

// The answer of output i by the sums over its terms.
pub fn answer(image: &CheckedImage, i: usize, sums: Sums, held: Crisp) -> Answer
    requires { i < image.now.stored.header.outputs.rows }
    ensures { (hs : List ℕ) → SumsOf sums.heights sums.moment (positions_of (word_at image.now.stored.bytes.now) i) hs
        → result ≡ output_answer (output_at (word_at image.now.stored.bytes.now) i) hs held.0 }
{
    match sums.centre() {
        Some(figure) => answer_with(Mark::Fired, figure, sums.heights as u32),
        None => match default_of(&image.stored, i) {
            Some(figure) => answer_with(Mark::Default, figure, 0),
            None => answer_with(Mark::Held, held, 0),
        },
    }
}

// The answer of a place past the last output.
pub fn no_answer() -> Answer
    ensures { result ≡ no_answer }
{
    Answer {
        mark: Mark::None,
        thousandths: Crisp(0),
        sum: 0,
        value: 0.0,
    }
}
