// The held record of an accepted image: whether one may be passed in, and the fresh one.
#![tactic(auto)]

ghost use Rattle.std.specs.Prelude.{◌≡◌, ◌≤◌, ◌<◌, eqb, nat_abs};
ghost use Rattle.model.specs.Ranges.{range_view};
ghost use Rattle.model.specs.WellFormed.{figure_ok};
ghost use Rattle.model.specs.Image.{word_at, output_at, decode};
ghost use Rattle.model.specs.Evaluation.{start_of, figures_of, held_ok, fresh_of};

use layout::CheckedImage;
use model::{Crisp, Held, Range};
use stored_ranges::range_of;

// 0, or the end of RANGE that is nearest 0.
fn start_of(range: Option<Range>) -> Crisp
    ensures { result.0 ≡ start_of (range_view range) }
{
    let zero = Crisp(0);
    match range {
        Some(r) if zero < r.least => r.least,
        Some(r) if r.most < zero => r.most,
        _ => zero,
    }
}

// Whether x may be the figure at place i: that of an output in the crisp bounds and in its RANGE, past the last output 0.
fn figure_fits(image: &CheckedImage, i: usize, x: Crisp) -> bool
    ensures of_output { i < image.now.stored.header.outputs.rows
        → result ≡ figure_ok (output_at (word_at image.now.stored.bytes.now) i).range x.0 }
    ensures past { image.now.stored.header.outputs.rows ≤ i → result ≡ eqb (nat_abs x.0) 0 }
{
    if i < image.stored.header.outputs.rows {
        stored_ranges::figure_ok(range_of(&image.stored, i), x)
    } else {
        x == Crisp(0)
    }
}

// Whether this may be the held record of an accepted image.
pub fn record_ok(image: &CheckedImage, held: Held) -> bool
    ensures { result ≡ held_ok (decode (word_at image.now.stored.bytes.now)).outputs (figures_of held) }
{
    for (i, x) in held.figures.iter().enumerate() {
        if !figure_fits(image, i, *x) {
            return false;
        }
    }
    true
}

// The fresh held record of an accepted image.
pub fn fresh_record(image: &CheckedImage) -> Held
    ensures { result ≡ fresh_of (decode (word_at image.now.stored.bytes.now)) }
{
    let mut figures = [Crisp(0); bounds::OUTPUTS];
    for i in 0..image.stored.header.outputs.rows {
        figures[i] = start_of(range_of(&image.stored, i));
    }
    Held { figures }
}
