// The outputs of a stored image: names, counts, RANGE, terms, DEFAULT.
#![tactic(auto)]

ghost use Rattle.std.specs.Prelude.{◌≡◌, ◌+◌, ◌≤◌, ◌<◌};
ghost use Rattle.model.specs.Basic.{all, tab};
ghost use Rattle.model.specs.Ranges.{range_view};
ghost use Rattle.model.specs.WellFormed.{singleton_ok};
ghost use Rattle.model.specs.Image.{word_at, singleton_at};
ghost use Rattle.stored_outputs.specs.Stored.{output_stored};

use layout::Laid;
use model::Range;
use stored_names::name_ok;

// Term t, of an output with this RANGE.
#[tactic(auto, using(crate::proofs::Named::point_named), unfolding(model::specs::WellFormed::singleton_ok, model::specs::Image::singleton_at))]
fn singleton_ok(image: &Laid, range: Option<Range>, t: usize) -> bool
    requires { (image.now.input_terms ≤ t) × (t < image.now.stored.header.terms.rows) }
    ensures { result ≡ singleton_ok (range_view range) (singleton_at (word_at image.now.stored.bytes.now) t) }
{
    let stored = &image.stored;
    let row = stored.header.terms.row(t);
    let point = stored.word(row + header::TERM_FIRST);
    name_ok(stored.bytes, row)
        && stored_ranges::figure_ok(range, stored_points::place_at(stored, point))
}

// The k terms from s on, of an output with this RANGE.
fn singletons_ok(image: &Laid, range: Option<Range>, s: usize, k: usize) -> bool
    requires { (image.now.input_terms ≤ s) × (s + k ≤ image.now.stored.header.terms.rows) }
    ensures { result ≡ all (singleton_ok (range_view range))
        (tab (singleton_at (word_at image.now.stored.bytes.now)) k s) }
{
    for t in s..s + k {
        if !singleton_ok(image, range, t) {
            return false;
        }
    }
    true
}

#[tactic(auto, using(crate::proofs::Named::output_terms_from, crate::proofs::Named::output_terms_to), unfolding(model::specs::Basic::every, crate::specs::Stored::output_stored))]
fn output_ok(image: &Laid, i: usize) -> bool
    requires { i < image.now.stored.header.outputs.rows }
    ensures { result ≡ output_stored (word_at image.now.stored.bytes.now) i }
{
    let stored = &image.stored;
    let row = stored.header.outputs.row(i);
    let terms = stored.word(row + header::OUTPUT_TERMS);
    let first = stored.word(row + header::OUTPUT_FIRST);
    let range = stored_ranges::range_of(stored, i);
    name_ok(stored.bytes, row)
        && (1..=bounds::TERMS).contains(&terms)
        && stored_ranges::range_ok(range)
        && singletons_ok(image, range, first, terms)
        && stored_terms::terms_apart(stored, first, terms)
        && stored_ranges::default_ok(range, stored_ranges::default_of(stored, i))
}

pub fn outputs_ok(image: &Laid) -> bool
    ensures { result ≡ all (output_stored (word_at image.now.stored.bytes.now)) (tab (λ i. i) image.now.stored.header.outputs.rows 0) }
{
    for i in 0..image.stored.header.outputs.rows {
        if !output_ok(image, i) {
            return false;
        }
    }
    true
}
