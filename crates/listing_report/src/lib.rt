// What the listing program prints of a text: the listing, or the refusal by number and place.
#![tactic(auto)]

ghost use Rattle.std.specs.Prelude.{◌≡◌, ◌≤◌, length};
ghost use Rattle.std.specs.Counts.{IsPrefixLen};
ghost use Rattle.model.specs.Bounds.{listing_limit};
ghost use Rattle.model.specs.Block.{Block};
ghost use Rattle.model.specs.Image.{loads};
ghost use Rattle.model.specs.Listing.{listing};
ghost use Rattle.model.specs.Outcome.{accepted};
ghost use Rattle.model.specs.Printed.{place_text, refused_line, printed};
ghost use Rattle.refusals.specs.Told.{place_of};
ghost use Rattle.listing_writer.specs.Prepends.{Writes};
ghost use Rattle.listing_report.specs.Shows.{Shows, ShowsRefusal};

use listing_writer::Listing;
use model::Refusal;
use number_listing::digits;
use refusals::Told;

// No line of a refusal is longer.
const LINE: usize = 64;

fn place(out: &mut Listing, t: Told)
    ensures { Writes (place_text (place_of t.place)) out.old out.new }
{
    match t.place {
        Some(n) => digits(out, n),
        None => out.puts(b"none"),
    }
}

#[tactic(auto, using(listing_writer::proofs::Prepends::parts), unfolding(model::specs::Printed::refused_line))]
fn refused_line(out: &mut Listing, t: Told)
    ensures writes { Writes (refused_line t.number (place_of t.place))
        out.old out.new }
    ensures short { length (refused_line t.number (place_of t.place)) ≤ 64 }
{
    out.puts(b"\n");
    place(out, t);
    out.puts(b" at ");
    digits(out, t.number as usize);
    out.puts(b"refused ");
}

// The line of a refusal.
fn refused(why: Refusal, out: &mut [u8]) -> usize
    requires { 64 ≤ length out.old }
    ensures { ShowsRefusal why result out.old out.new }
{
    let t = refusals::number_and_place(why);
    let mut bytes = [0u8; LINE];
    let mut line = Listing::new(&mut bytes);
    refused_line(&mut line, t);
    let n = line.count();
    out[..n].copy_from_slice(line.text());
    n
}

// The listing of an accepted image.
fn listed(img: &[u8], out: &mut [u8]) -> usize
    requires { listing_limit ≤ length out.old }
    ensures { (b : Block) → loads img.now ≡ accepted b
        → Shows (listing b) result out.old out.new }
{
    match lister::list(img, out) {
        Ok(n) => n,
        Err(why) => refused(why, out),
    }
}

pub fn print(s: &[u8], out: &mut [u8]) -> usize
    requires { listing_limit ≤ length out.old }
    ensures shows { Shows (printed s.now) result out.old out.new }
    ensures counts { IsPrefixLen result out.new }
{
    let mut image = [0u8; bounds::IMAGE];
    match reader::read(s, &mut image) {
        Ok(n) => listed(&image[..n], out),
        Err(why) => refused(why, out),
    }
}
