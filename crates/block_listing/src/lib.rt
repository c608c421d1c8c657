// The listing of an accepted image, from its end to its front.
#![tactic(auto)]

ghost use Rattle.model.specs.Image.{word_at, decode};
ghost use Rattle.model.specs.Listing.{listing};
ghost use Rattle.listing_writer.specs.Prepends.{Writes};

use declaration_listing::{input_lines, output_lines};
use defuzzify_listing::defuzzify_parts;
use fuzzify_listing::fuzzify_parts;
use layout::CheckedImage;
use listing_writer::Listing;
use name_listing::name;
use rule_listing::rule_block;

// The text of an accepted image.
pub fn block(out: &mut Listing, image: &CheckedImage)
    ensures { Writes (listing (decode (word_at image.now.stored.bytes.now))) out.old out.new }
{
    out.puts(b"END_FUNCTION_BLOCK\n");
    rule_block(out, image);
    defuzzify_parts(out, image);
    fuzzify_parts(out, image);
    out.puts(b"END_VAR\n");
    output_lines(out, image);
    out.puts(b"END_VAR\nVAR_OUTPUT\n");
    input_lines(out, image);
    out.puts(b"\nVAR_INPUT\n");
    name(out, image.stored.bytes, header::BLOCK_NAME);
    out.puts(b"FUNCTION_BLOCK ");
}
