// The DEFUZZIFY parts of an accepted image as a listing prints them. Each text is written from its end to its front.
#![tactic(auto, using(listing_writer::proofs::Prepends::parts))]

ghost use Rattle.std.specs.Prelude.{◌+◌, ◌≤◌, ◌<◌};
ghost use Rattle.model.specs.Basic.{gather, tab};
ghost use Rattle.model.specs.Image.{word_at, singleton_at, output_at, decode};
ghost use Rattle.model.specs.Listing.{range_line, singleton_line, default_text, defuzzify_text};
ghost use Rattle.model.specs.Ranges.{range_view, default_view};
ghost use Rattle.layout.specs.Tables.{input_terms_in};
ghost use Rattle.listing_writer.specs.Prepends.{Writes};

use header::{OUTPUT_FIRST, OUTPUT_TERMS, TERM_FIRST};
use layout::CheckedImage;
use listing_writer::Listing;
use model::{Crisp, Range};
use name_listing::name;
use number_listing::crisp;
use stored_points::place_at;
use stored_ranges::{default_of, range_of};

// Term t of the image, as an output has it.
fn singleton(out: &mut Listing, image: &CheckedImage, t: usize)
    requires { (input_terms_in (word_at image.now.stored.bytes.now) ≤ t) × (t < image.now.stored.header.terms.rows) }
    ensures { Writes (singleton_line (singleton_at (word_at image.now.stored.bytes.now) t)) out.old out.new }
{
    let stored = &image.stored;
    let row = stored.header.terms.row(t);
    out.puts(b";\n");
    crisp(out, place_at(stored, stored.word(row + TERM_FIRST)));
    out.puts(b" := ");
    name(out, stored.bytes, row);
    out.puts(b"  TERM ");
}

// The n terms from the first on.
#[tactic(auto, using(listing_writer::proofs::Lists::items))]
fn singletons(out: &mut Listing, image: &CheckedImage, first: usize, n: usize)
    requires { (input_terms_in (word_at image.now.stored.bytes.now) ≤ first)
        × (first + n ≤ image.now.stored.header.terms.rows) }
    ensures { Writes (gather singleton_line (tab (singleton_at (word_at image.now.stored.bytes.now)) n first))
        out.old out.new }
{
    for t in (first..first + n).rev() {
        singleton(out, image, t);
    }
}

fn range_line(out: &mut Listing, range: Option<Range>)
    ensures { Writes (range_line (range_view range)) out.old out.new }
{
    if let Some(r) = range {
        out.puts(b");\n");
        crisp(out, r.most);
        out.puts(b"..");
        crisp(out, r.least);
        out.puts(b"  RANGE(");
    }
}

fn default_value(out: &mut Listing, default: Option<Crisp>)
    ensures { Writes (default_text (default_view default)) out.old out.new }
{
    match default {
        None => out.puts(b"NC"),
        Some(x) => crisp(out, x),
    }
}

#[tactic(auto, using(listing_writer::proofs::Prepends::parts), unfolding(model::specs::Listing::defuzzify_text, model::specs::Image::output_at))]
fn defuzzify_part(out: &mut Listing, image: &CheckedImage, i: usize)
    requires { i < image.now.stored.header.outputs.rows }
    ensures { Writes (defuzzify_text (output_at (word_at image.now.stored.bytes.now) i)) out.old out.new }
{
    let stored = &image.stored;
    let row = stored.header.outputs.row(i);
    let first = stored.word(row + OUTPUT_FIRST);
    let n = stored.word(row + OUTPUT_TERMS);
    out.puts(b";\nEND_DEFUZZIFY\n");
    default_value(out, default_of(stored, i));
    out.puts(b"  METHOD : CoGS;\n  DEFAULT := ");
    singletons(out, image, first, n);
    range_line(out, range_of(stored, i));
    out.puts(b"\n");
    name(out, stored.bytes, row);
    out.puts(b"DEFUZZIFY ");
}

#[tactic(auto, using(listing_writer::proofs::Lists::items), unfolding(model::specs::Image::decode))]
pub fn defuzzify_parts(out: &mut Listing, image: &CheckedImage)
    ensures { Writes (gather defuzzify_text (decode (word_at image.now.stored.bytes.now)).outputs) out.old out.new }
{
    for i in (0..image.stored.header.outputs.rows).rev() {
        defuzzify_part(out, image, i);
    }
}
