// An input and its term as a condition prints them.
#![tactic(auto, using(listing_writer::proofs::Prepends::parts))]

ghost use Rattle.std.specs.Prelude.{◌≡◌, [], ◌++◌, ◌≤◌, ◌<◌, MatchOption};
ghost use Rattle.model.specs.Image.{word_at, name_at, decode, input_place, term_place};
ghost use Rattle.model.specs.Listing.{input_term_name};
ghost use Rattle.listing_writer.specs.Prepends.{Writes};

use header::{INPUT_FIRST, INPUT_TERMS};
use layout::CheckedImage;
use listing_writer::Listing;
use name_listing::name;

// The input that has term t.
fn owner(image: &CheckedImage, t: usize) -> Option<usize>
    ensures { MatchOption result
        (input_term_name (decode (word_at image.now.stored.bytes.now)) t ≡ record { variable = []; term = [] })
        (λ i. (i < image.now.stored.header.inputs.rows)
        × (input_term_name (decode (word_at image.now.stored.bytes.now)) t ≡ record {
          variable = name_at (word_at image.now.stored.bytes.now) (input_place (word_at image.now.stored.bytes.now) i);
          term = name_at (word_at image.now.stored.bytes.now) (term_place (word_at image.now.stored.bytes.now) t);
        })) }
{
    let stored = &image.stored;
    let inputs = stored.header.inputs;
    for i in 0..inputs.rows {
        let row = inputs.row(i);
        if t < stored.word(row + INPUT_FIRST) + stored.word(row + INPUT_TERMS) {
            return Some(i);
        }
    }
    None
}

// The input that has term t, what stands between, and the term.
pub fn term(out: &mut Listing, image: &CheckedImage, t: usize, between: &[u8])
    requires { t ≤ 4294967295 }
    ensures { Writes
        ((input_term_name (decode (word_at image.now.stored.bytes.now)) t).variable
        ++ (between.now ++ (input_term_name (decode (word_at image.now.stored.bytes.now)) t).term))
        out.old out.new }
{
    let stored = &image.stored;
    if let Some(i) = owner(image, t) {
        name(out, stored.bytes, stored.header.terms.row(t));
        out.puts(between);
        name(out, stored.bytes, stored.header.inputs.row(i));
    } else {
        out.puts(between);
    }
}
