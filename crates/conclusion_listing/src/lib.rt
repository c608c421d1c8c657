// What a listed rule concludes, and its weight.
#![tactic(auto, using(listing_writer::proofs::Prepends::parts))]

ghost use Rattle.std.specs.Prelude.{◌≡◌, true, map, ◌<◌};
ghost use Rattle.model.specs.WellFormed.{conclusion_ok};
ghost use Rattle.model.specs.Image.{word_at, decode, rule_at, conclusion_at};
ghost use Rattle.model.specs.Listing.{commaed, conclusion_text, weight_text};
ghost use Rattle.listing_writer.specs.Prepends.{Writes};

use header::{CONCLUSION_TERM, RULE_CONCLUSION_FIRST, RULE_CONCLUSIONS};
use layout::CheckedImage;
use listing_writer::Listing;
use model::Degree;
use name_listing::name;

// Conclusion j, counted over the whole table.
fn conclusion(out: &mut Listing, image: &CheckedImage, j: usize)
    requires { (j < image.now.stored.header.conclusions.rows)
        × (conclusion_ok (decode (word_at image.now.stored.bytes.now))
        (conclusion_at (word_at image.now.stored.bytes.now) j) ≡ true) }
    ensures { Writes
        (conclusion_text (decode (word_at image.now.stored.bytes.now))
        (conclusion_at (word_at image.now.stored.bytes.now) j))
        out.old out.new }
{
    let stored = &image.stored;
    let header = stored.header;
    let row = header.conclusions.row(j);
    name(
        out,
        stored.bytes,
        header.terms.row(stored.word(row + CONCLUSION_TERM)),
    );
    out.puts(b" IS ");
    name(out, stored.bytes, header.outputs.row(stored.word(row)));
}

// The conclusions of rule i.
#[tactic(auto, using(listing_writer::proofs::Lists::commaed_items))]
pub fn conclusions(out: &mut Listing, image: &CheckedImage, i: usize)
    requires { i < image.now.stored.header.rules.rows }
    ensures { Writes
        (commaed (map (conclusion_text (decode (word_at image.now.stored.bytes.now)))
        (rule_at (word_at image.now.stored.bytes.now) i).conclusions))
        out.old out.new }
{
    let stored = &image.stored;
    let row = stored.header.rules.row(i);
    let first = stored.word(row + RULE_CONCLUSION_FIRST);
    let end = first + stored.word(row + RULE_CONCLUSIONS);
    for j in (first..end).rev() {
        if j + 1 < end {
            out.puts(b", ");
        }
        conclusion(out, image, j);
    }
}

// A weight other than 1.
pub fn weight(out: &mut Listing, d: Degree)
    ensures { Writes (weight_text d.0) out.old out.new }
{
    if d.0 as usize != bounds::M {
        number_listing::unit(out, d);
        out.puts(b" WITH ");
    }
}
