// The declarations of an accepted image's variables as a listing prints them. Each text is written from its end to its
// front.
#![tactic(auto)]

ghost use Rattle.std.specs.Prelude.{◌<◌};
ghost use Rattle.model.specs.Basic.{gather};
ghost use Rattle.model.specs.Image.{word_at, input_at, output_at, decode};
ghost use Rattle.model.specs.Listing.{type_text, input_line, output_line};
ghost use Rattle.listing_writer.specs.Prepends.{Writes};

use header::{INPUT_TYPE, REAL, Stored};
use layout::CheckedImage;
use listing_writer::Listing;
use name_listing::name;

// The type of input i.
#[tactic(auto, unfolding(model::specs::Image::input_at))]
fn input_type(out: &mut Listing, image: &Stored, i: usize)
    requires { i < image.now.header.inputs.rows }
    ensures { Writes (type_text (input_at (word_at image.now.bytes.now) i).type) out.old out.new }
{
    let row = image.header.inputs.row(i);
    if image.word(row + INPUT_TYPE) == REAL {
        out.puts(b"REAL");
    } else {
        out.puts(b"INT");
    }
}

#[tactic(auto, using(listing_writer::proofs::Prepends::parts), unfolding(model::specs::Image::input_at))]
fn input_line(out: &mut Listing, image: &Stored, i: usize)
    requires { i < image.now.header.inputs.rows }
    ensures { Writes (input_line (input_at (word_at image.now.bytes.now) i)) out.old out.new }
{
    out.puts(b";\n");
    input_type(out, image, i);
    out.puts(b" : ");
    name(out, image.bytes, image.header.inputs.row(i));
    out.puts(b"  ");
}

#[tactic(auto, using(listing_writer::proofs::Lists::items), unfolding(model::specs::Image::decode))]
pub fn input_lines(out: &mut Listing, image: &CheckedImage)
    ensures { Writes (gather input_line (decode (word_at image.now.stored.bytes.now)).inputs) out.old out.new }
{
    for i in (0..image.stored.header.inputs.rows).rev() {
        input_line(out, &image.stored, i);
    }
}

#[tactic(auto, using(listing_writer::proofs::Prepends::parts), unfolding(model::specs::Image::output_at))]
fn output_line(out: &mut Listing, image: &Stored, i: usize)
    requires { i < image.now.header.outputs.rows }
    ensures { Writes (output_line (output_at (word_at image.now.bytes.now) i)) out.old out.new }
{
    out.puts(b" : REAL;\n");
    name(out, image.bytes, image.header.outputs.row(i));
    out.puts(b"  ");
}

#[tactic(auto, using(listing_writer::proofs::Lists::items), unfolding(model::specs::Image::decode))]
pub fn output_lines(out: &mut Listing, image: &CheckedImage)
    ensures { Writes (gather output_line (decode (word_at image.now.stored.bytes.now)).outputs) out.old out.new }
{
    for i in (0..image.stored.header.outputs.rows).rev() {
        output_line(out, &image.stored, i);
    }
}
