// One row of each table of inputs, outputs and terms of a stored image: whether it is laid out as an entry's. Row i is
// asked, and first is its first term or point.
#![tactic(auto)]

ghost use Rattle.std.specs.Prelude.{◌≡◌, ◌+◌, ◌*◌, ◌≤◌, ◌<◌, length};
ghost use Rattle.model.specs.Image.{word_at, input_place, output_place, term_place};
ghost use Rattle.stored_rows.specs.Tests.{range_test, default_test, input_test, output_test, term_test, singleton_test};

use header::Stored;
use stored_header::name_exact;

// RANGE of the output whose row starts at o is given, or its words are 0.
#[tactic(auto, unfolding(model::specs::Basic::every, crate::specs::Tests::range_test))]
fn range_ok(image: &Stored, o: usize) -> bool
    requires { (o + 11) * 4 ≤ length image.now.bytes.now }
    ensures { result ≡ range_test (word_at image.now.bytes.now) o }
{
    match image.word(o + header::OUTPUT_RANGE) {
        0 => image.word(o + header::OUTPUT_LEAST) == 0 && image.word(o + header::OUTPUT_MOST) == 0,
        flag => flag == header::GIVEN,
    }
}

// DEFAULT of that output is a value, or its word is 0.
#[tactic(auto, unfolding(crate::specs::Tests::default_test))]
fn default_ok(image: &Stored, o: usize) -> bool
    requires { (o + 11) * 4 ≤ length image.now.bytes.now }
    ensures { result ≡ default_test (word_at image.now.bytes.now) o }
{
    match image.word(o + header::OUTPUT_DEFAULT_KIND) {
        0 => image.word(o + header::OUTPUT_DEFAULT) == 0,
        kind => kind == header::GIVEN,
    }
}

#[tactic(auto, unfolding(model::specs::Basic::every, crate::specs::Tests::input_test))]
pub fn input_ok(image: &Stored, i: usize, first: usize) -> bool
    requires { i < image.now.header.inputs.rows }
    ensures { result ≡ input_test (word_at image.now.bytes.now) (input_place (word_at image.now.bytes.now) i) first }
{
    let row = image.header.inputs.row(i);
    name_exact(image.bytes, row)
        && image.word(row + header::INPUT_TYPE) <= header::LAST_TYPE
        && image.word(row + header::INPUT_FIRST) == first
}

#[tactic(auto, unfolding(model::specs::Basic::every, crate::specs::Tests::output_test))]
pub fn output_ok(image: &Stored, i: usize, first: usize) -> bool
    requires { i < image.now.header.outputs.rows }
    ensures { result ≡ output_test (word_at image.now.bytes.now) (output_place (word_at image.now.bytes.now) i) first }
{
    let row = image.header.outputs.row(i);
    name_exact(image.bytes, row)
        && image.word(row + header::OUTPUT_FIRST) == first
        && range_ok(image, row)
        && default_ok(image, row)
}

#[tactic(auto, unfolding(model::specs::Basic::every, crate::specs::Tests::term_test))]
pub fn term_ok(image: &Stored, i: usize, first: usize) -> bool
    requires { i < image.now.header.terms.rows }
    ensures { result ≡ term_test (word_at image.now.bytes.now) (term_place (word_at image.now.bytes.now) i) first }
{
    let row = image.header.terms.row(i);
    name_exact(image.bytes, row) && image.word(row + header::TERM_FIRST) == first
}

// A term of an output has one point.
#[tactic(auto, unfolding(crate::specs::Tests::singleton_test))]
pub fn singleton_ok(image: &Stored, i: usize, first: usize) -> bool
    requires { i < image.now.header.terms.rows }
    ensures { result ≡ singleton_test (word_at image.now.bytes.now) (term_place (word_at image.now.bytes.now) i) first }
{
    term_ok(image, i, first) && image.word(image.header.terms.row(i) + header::TERM_POINTS) == 1
}
