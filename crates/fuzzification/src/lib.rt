// From the values of the inputs to the degrees of their terms, by an accepted image.
#![tactic(auto)]

ghost use Rattle.std.specs.Prelude.{◌≡◌};
ghost use Rattle.model.specs.Bounds.{input_term_limit};
ghost use Rattle.model.specs.Evaluation.{term_degrees};
ghost use Rattle.model.specs.Image.{word_at, decode};
ghost use Rattle.degrees.specs.Tables.{numbers};
ghost use Rattle.input_values.specs.Filled.{filled, figures, AllCrisp};

use bounds::{INPUT_TERMS, INPUTS};
use degrees::Degrees;
use layout::CheckedImage;
use membership::input_term_degree;
use model::Crisp;

// The degrees of all input terms at the inputs' values, and 0 in the places past them.
pub fn term_degrees(image: &CheckedImage, xs: &[Crisp; INPUTS]) -> Degrees<INPUT_TERMS>
    requires { AllCrisp (figures xs.now) }
    ensures { numbers result.at ≡ filled input_term_limit 0
        (term_degrees (decode (word_at image.now.stored.bytes.now)).inputs (figures xs.now)) }
{
    let stored = &image.stored;
    let mut ds = Degrees::zeros();
    let mut first = 0;
    for i in 0..stored.header.inputs.rows {
        let count = stored.word(stored.header.inputs.row(i) + header::INPUT_TERMS);
        for t in first..first + count {
            ds.set(t, input_term_degree(image, t, xs[i]));
        }
        first += count;
    }
    ds
}
