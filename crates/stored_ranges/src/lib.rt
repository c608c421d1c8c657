// RANGE and DEFAULT of a stored output.
#![tactic(auto)]

ghost use Rattle.std.specs.Prelude.{◌≡◌, ◌<◌};
ghost use Rattle.model.specs.Ranges.{range_view, default_view};
ghost use Rattle.model.specs.WellFormed.{range_ok, figure_ok, default_ok};
ghost use Rattle.model.specs.Image.{word_at, output_at};

use header::Stored;
use model::{Crisp, Range};

// RANGE of output i, where it has one.
#[tactic(auto, unfolding(model::specs::Image::output_at))]
pub fn range_of(image: &Stored, i: usize) -> Option<Range>
    requires { i < image.now.header.outputs.rows }
    ensures { range_view result ≡ (output_at (word_at image.now.bytes.now) i).range }
{
    let row = image.header.outputs.row(i);
    if image.word(row + header::OUTPUT_RANGE) == 0 {
        return None;
    }
    Some(Range {
        least: image.crisp(row + header::OUTPUT_LEAST),
        most: image.crisp(row + header::OUTPUT_MOST),
    })
}

// DEFAULT of output i, where it has one.
#[tactic(auto, unfolding(model::specs::Image::output_at))]
pub fn default_of(image: &Stored, i: usize) -> Option<Crisp>
    requires { i < image.now.header.outputs.rows }
    ensures { default_view result ≡ (output_at (word_at image.now.bytes.now) i).default }
{
    let row = image.header.outputs.row(i);
    if image.word(row + header::OUTPUT_DEFAULT_KIND) == 0 {
        return None;
    }
    Some(image.crisp(row + header::OUTPUT_DEFAULT))
}

pub fn range_ok(range: Option<Range>) -> bool
    ensures { result ≡ range_ok (range_view range) }
{
    match range {
        None => true,
        Some(r) => crisp::in_bounds(r.least) && crisp::in_bounds(r.most) && r.least < r.most,
    }
}

// x is a crisp value within this RANGE.
pub fn figure_ok(range: Option<Range>, x: Crisp) -> bool
    ensures { result ≡ figure_ok (range_view range) x.0 }
{
    crisp::in_bounds(x) && crisp::in_range(range, x)
}

// DEFAULT of an output with this RANGE.
pub fn default_ok(range: Option<Range>, default: Option<Crisp>) -> bool
    ensures { result ≡ default_ok (range_view range) (default_view default) }
{
    match default {
        None => true,
        Some(x) => figure_ok(range, x),
    }
}
