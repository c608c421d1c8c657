// The terms of inputs in a stored image, and terms whose names are distinct.
#![tactic(auto)]

ghost use Rattle.std.specs.Prelude.{◌≡◌, ◌+◌, ◌≤◌, ◌<◌};
ghost use Rattle.model.specs.Basic.{all, tab};
ghost use Rattle.model.specs.WellFormed.{term_ok};
ghost use Rattle.model.specs.Image.{word_at, term_at};
ghost use Rattle.stored_terms.specs.Stored.{term_stored, terms_apart};

use header::{Stored, TERM_WIDTH, Table};
use layout::Laid;

// Term t, which is an input's.
#[tactic(auto, using(crate::proofs::Named::points_named), unfolding(model::specs::Basic::every, crate::specs::Stored::term_stored))]
fn term_ok(image: &Laid, t: usize) -> bool
    requires { t < image.now.input_terms }
    ensures { result ≡ term_stored (word_at image.now.stored.bytes.now) t }
{
    let stored = &image.stored;
    let row = stored.header.terms.row(t);
    let points = stored.word(row + header::TERM_POINTS);
    stored_names::name_ok(stored.bytes, row)
        && term_rules::point_count_ok(points)
        && term_points::points_ok(stored, stored.word(row + header::TERM_FIRST), points)
}

// The k terms from s on, which are inputs'.
pub fn terms_ok(image: &Laid, s: usize, k: usize) -> bool
    requires { s + k ≤ image.now.input_terms }
    ensures { result ≡ all term_ok (tab (term_at (word_at image.now.stored.bytes.now)) k s) }
{
    for t in s..s + k {
        if !term_ok(image, t) {
            return false;
        }
    }
    true
}

// The names of the k terms from s on are distinct.
#[tactic(auto, unfolding(crate::specs::Stored::terms_apart))]
pub fn terms_apart(image: &Stored, s: usize, k: usize) -> bool
    requires { s + k ≤ image.now.header.terms.rows }
    ensures { result ≡ terms_apart (word_at image.now.bytes.now) s k }
{
    let terms: Table<TERM_WIDTH> = Table {
        rows: k,
        start: image.header.terms.row(s),
    };
    distinct_names::distinct_ok(image.bytes, &terms)
}
