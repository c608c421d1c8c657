// The degree of a value in a stored term: its membership function, by the term's points.
#![tactic(auto)]

ghost use Rattle.std.specs.Prelude.{◌≡◌, true, ◌+◌, ◌-◌, ◌≤◌, ◌<◌, ◌≤ℤ◌};
ghost use Rattle.model.specs.Basic.{all, tab};
ghost use Rattle.model.specs.Bounds.{M};
ghost use Rattle.model.specs.Degrees.{degree_from, term_degree};
ghost use Rattle.model.specs.Image.{word_at, point_at, term_at};
ghost use Rattle.model.specs.WellFormed.{point_ok, term_ok};
ghost use Rattle.crisp.specs.Crisp.{InCrisp};

use header::Stored;
use layout::CheckedImage;
use model::{Crisp, Degree};
use stored_points::{degree_at, place_at, point_at};

// The degree at x of a term whose points go from the first to the one before `end`, where x is not below the first.
fn degree_from(stored: &Stored, first: usize, end: usize, x: Crisp) -> Degree
    requires within { (first < end) × (end ≤ stored.now.header.points.rows) × InCrisp x.0 }
    requires first_bound { ((point_at (word_at stored.now.bytes.now) first).at ≤ℤ x.0)
        × (all point_ok (tab (point_at (word_at stored.now.bytes.now)) (end - first) first) ≡ true) }
    ensures { (result.0 ≡ degree_from x.0 (point_at (word_at stored.now.bytes.now) first)
        (tab (point_at (word_at stored.now.bytes.now)) (end - (first + 1)) (first + 1))) × (result.0 ≤ M) }
{
    for i in first + 1..end {
        if x < place_at(stored, i) {
            return terms::on_line(x, point_at(stored, i - 1), point_at(stored, i));
        }
    }
    degree_at(stored, end - 1)
}

#[tactic(auto, using(layout::proofs::Within::inputs_first))]
pub fn input_term_degree(image: &CheckedImage, t: usize, x: Crisp) -> Degree
    requires input_term { (t < image.now.input_terms) × InCrisp x.0 }
    requires ok { term_ok (term_at (word_at image.now.stored.bytes.now) t) ≡ true }
    ensures { (result.0 ≡ term_degree (term_at (word_at image.now.stored.bytes.now) t).points x.0) × (result.0 ≤ M) }
{
    let stored = &image.stored;
    let row = stored.header.terms.row(t);
    let count = stored.word(row + header::TERM_POINTS);
    let first = stored.word(row + header::TERM_FIRST);
    if x < place_at(stored, first) {
        return degree_at(stored, first);
    }
    degree_from(stored, first, first + count, x)
}
