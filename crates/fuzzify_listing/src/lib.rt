// The FUZZIFY parts of an accepted image as a listing prints them. Each text is written from its end to its front.
#![tactic(auto, using(listing_writer::proofs::Prepends::parts))]

ghost use Rattle.std.specs.Prelude.{◌≡◌, true, map, ◌+◌, ◌≤◌, ◌<◌};
ghost use Rattle.model.specs.Basic.{all, gather, tab};
ghost use Rattle.model.specs.Bounds.{point_limit};
ghost use Rattle.model.specs.Image.{word_at, point_at, term_at, input_at, decode};
ghost use Rattle.model.specs.Listing.{commaed, point_text, term_line, fuzzify_text};
ghost use Rattle.model.specs.WellFormed.{term_ok};
ghost use Rattle.terms.specs.Points.{point_view, point_views};
ghost use Rattle.layout.specs.Tables.{input_terms_in};
ghost use Rattle.listing_writer.specs.Prepends.{Writes};

use bounds::POINTS;
use header::{INPUT_FIRST, INPUT_TERMS, Stored, TERM_FIRST, TERM_POINTS};
use layout::CheckedImage;
use listing_writer::Listing;
use model::{Crisp, Degree, Point};
use name_field::{bytes_at, first_zero};
use name_listing::name;
use number_listing::{crisp, unit};
use stored_points::point_at;

fn point(out: &mut Listing, p: Point)
    ensures { Writes (point_text (point_view p)) out.old out.new }
{
    out.puts(b")");
    unit(out, p.degree);
    out.puts(b", ");
    crisp(out, p.at);
    out.puts(b"(");
}

#[tactic(auto, using(listing_writer::proofs::Lists::commaed_items))]
fn points(out: &mut Listing, ps: &[Point])
    ensures { Writes (commaed (map point_text (map point_view ps.now))) out.old out.new }
{
    for i in (0..ps.len()).rev() {
        if i + 1 < ps.len() {
            out.puts(b", ");
        }
        point(out, ps[i]);
    }
}

// A term by its name and its points.
#[tactic(auto, using(listing_writer::proofs::Prepends::parts), unfolding(model::specs::Listing::term_line))]
pub fn term_line(out: &mut Listing, name: &[u8], ps: &[Point])
    ensures { Writes (term_line (record { name = name.now; points = map point_view ps.now })) out.old out.new }
{
    out.puts(b";\n");
    points(out, ps);
    out.puts(b" := ");
    out.puts(name);
    out.puts(b"  TERM ");
}

// The n points from the first on.
fn term_points(image: &Stored, first: usize, n: usize) -> [Point; POINTS]
    requires { (first + n ≤ image.now.header.points.rows) × (n ≤ point_limit) }
    ensures { point_views result n ≡ tab (point_at (word_at image.now.bytes.now)) n first }
{
    let mut ps = [Point {
        at: Crisp(0),
        degree: Degree(0),
    }; POINTS];
    for k in 0..n {
        ps[k] = point_at(image, first + k);
    }
    ps
}

// Term t of the image.
fn input_term(out: &mut Listing, image: &CheckedImage, t: usize)
    requires { (t < image.now.stored.header.terms.rows) × (t < input_terms_in (word_at image.now.stored.bytes.now))
        × (term_ok (term_at (word_at image.now.stored.bytes.now) t) ≡ true) }
    ensures { Writes (term_line (term_at (word_at image.now.stored.bytes.now) t)) out.old out.new }
{
    let stored = &image.stored;
    let row = stored.header.terms.row(t);
    let first = stored.word(row + TERM_FIRST);
    let n = stored.word(row + TERM_POINTS);
    let ps = term_points(stored, first, n);
    let name = bytes_at(stored.bytes, row);
    term_line(out, &name[..first_zero(&name)], &ps[..n]);
}

// The n terms from the first on.
#[tactic(auto, using(listing_writer::proofs::Lists::items))]
fn input_terms(out: &mut Listing, image: &CheckedImage, first: usize, n: usize)
    requires { (first + n ≤ input_terms_in (word_at image.now.stored.bytes.now))
        × (all term_ok (tab (term_at (word_at image.now.stored.bytes.now)) n first) ≡ true) }
    ensures { Writes (gather term_line (tab (term_at (word_at image.now.stored.bytes.now)) n first)) out.old out.new }
{
    for t in (first..first + n).rev() {
        input_term(out, image, t);
    }
}

#[tactic(auto, using(listing_writer::proofs::Prepends::parts), unfolding(model::specs::Listing::fuzzify_text, model::specs::Image::input_at))]
fn fuzzify_part(out: &mut Listing, image: &CheckedImage, i: usize)
    requires { i < image.now.stored.header.inputs.rows }
    ensures { Writes (fuzzify_text (input_at (word_at image.now.stored.bytes.now) i)) out.old out.new }
{
    let stored = &image.stored;
    let row = stored.header.inputs.row(i);
    let first = stored.word(row + INPUT_FIRST);
    let n = stored.word(row + INPUT_TERMS);
    out.puts(b"END_FUZZIFY\n");
    input_terms(out, image, first, n);
    out.puts(b"\n");
    name(out, stored.bytes, row);
    out.puts(b"FUZZIFY ");
}

#[tactic(auto, using(listing_writer::proofs::Lists::items), unfolding(model::specs::Image::decode))]
pub fn fuzzify_parts(out: &mut Listing, image: &CheckedImage)
    ensures { Writes (gather fuzzify_text (decode (word_at image.now.stored.bytes.now)).inputs) out.old out.new }
{
    for i in (0..image.stored.header.inputs.rows).rev() {
        fuzzify_part(out, image, i);
    }
}
